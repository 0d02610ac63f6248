ghost use Rattle.std.specs.Prelude.{◌≡◌};
ghost use Rattle.cr_ints.specs.IntKind.{Represents, IsInteger};
ghost use Rattle.cr_ints.specs.Conversions.{wrapped, convert_of, promote_of, IsPromoted, higher_of, mixed_of, balanced_of, common_of};
ghost use Rattle.cr_ints.specs.Operations.{modulo_of};

use crate::kind::IntKind;

/// The value converted to a kind (C11 6.3.1.2 and 6.3.1.3).
pub fn convert(value: i128, to: IntKind) -> i128
    requires { IsInteger value }
    ensures value { result ≡ convert_of value to }
    ensures representable { Represents to result }
{
    match to {
        IntKind::Bool => i128::from(value != 0),
        _ => wrap(value, to),
    }
}

fn wrap(value: i128, to: IntKind) -> i128
    requires { IsInteger value }
    ensures value { result ≡ wrapped to value }
    ensures representable { Represents to result }
{
    let least = to.least();
    least + residue(value - least, to)
}

// What is left of an integer modulo the number of the kind's values: its low bits, without a division or a branch.
pub(crate) fn residue(value: i128, kind: IntKind) -> i128
    ensures { result ≡ modulo_of kind value }
{
    (value.cast_unsigned() & u128::from(kind.mask())) as i128
}

/// The kind that the integer promotions give (6.3.1.1p2).
pub fn promote(kind: IntKind) -> IntKind
    ensures value { result ≡ promote_of kind }
    ensures promoted { IsPromoted result }
{
    match kind {
        IntKind::UInt | IntKind::Long | IntKind::ULong | IntKind::LLong | IntKind::ULLong => kind,
        _ => IntKind::Int,
    }
}

/// The kind in which an operation on two operands is done (the usual arithmetic conversions, 6.3.1.8p1).
pub fn common(left: IntKind, right: IntKind) -> IntKind
    ensures value { result ≡ common_of left right }
    ensures promoted { IsPromoted result }
{
    balance(promote(left), promote(right))
}

fn balance(left: IntKind, right: IntKind) -> IntKind
    ensures { result ≡ balanced_of left right }
{
    if left.is_signed() == right.is_signed() {
        higher(left, right)
    } else if left.is_signed() {
        mixed(right, left)
    } else {
        mixed(left, right)
    }
}

fn higher(left: IntKind, right: IntKind) -> IntKind
    ensures { result ≡ higher_of left right }
{
    if left.rank() < right.rank() {
        right
    } else {
        left
    }
}

fn mixed(unsigned: IntKind, signed: IntKind) -> IntKind
    ensures { result ≡ mixed_of unsigned signed }
{
    if signed.rank() <= unsigned.rank() {
        unsigned
    } else if signed.can_represent_all(unsigned) {
        signed
    } else {
        signed.to_unsigned()
    }
}
