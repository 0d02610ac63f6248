ghost use Rattle.std.specs.Prelude.{◌≡◌, ◌≢◌, pos, ◌^◌};
ghost use Rattle.std.specs.Int.{int_rem_euclid};
ghost use Rattle.cr_ints.specs.IntKind.{Represents, IsInteger};
ghost use Rattle.cr_ints.specs.Conversions.{IsPromoted, convert_of};
ghost use Rattle.cr_check_constants.specs.Constants.{in_kind, promoted_kind, common_kind};

use cr_ints::{IntKind, common, convert, promote};

/// The value converted to a kind. Unlike `cr_ints::convert` it takes every number.
#[tactic(auto, using(crate::proofs::Reductions::converts), unfolding(crate::specs::Constants::in_kind))]
pub(crate) fn converted(kind: IntKind, value: i128) -> i128
    ensures value { result ≡ in_kind kind value }
    ensures representable { Represents kind result }
{
    match kind {
        IntKind::Bool => i128::from(value != 0),
        _ => convert(reduced(value), kind),
    }
}

// What is left modulo 2^64.
#[tactic(auto, using(crate::proofs::Reductions::reduced_integer))]
fn reduced(value: i128) -> i128
    ensures value { result ≡ int_rem_euclid value (pos (2 ^ 64)) }
    ensures integer { IsInteger result }
{
    value.rem_euclid(1 << 64)
}

/// The kind after the integer promotions.
#[tactic(auto, unfolding(crate::specs::Constants::promoted_kind))]
pub(crate) fn promoted_kind(kind: IntKind) -> IntKind
    ensures { result ≡ promoted_kind kind }
{
    promote(kind)
}

/// The kind after the usual arithmetic conversions.
#[tactic(auto, unfolding(crate::specs::Constants::common_kind))]
pub(crate) fn common_kind(left: IntKind, right: IntKind) -> IntKind
    ensures { result ≡ common_kind left right }
{
    common(left, right)
}
