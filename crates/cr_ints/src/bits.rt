ghost use Rattle.std.specs.Prelude.{◌≡◌, ◌≤◌, unsigned_abs};
ghost use Rattle.cr_ints.specs.IntKind.{Represents, greatest_of, unsigned_of};
ghost use Rattle.cr_ints.specs.Bits.{bits_of, of_bits, bitand_of, bitor_of, bitxor_of, not_of};

use crate::conversion::convert;
use crate::kind::IntKind;

/// `left & right` (C11 6.5.10p4).
pub fn bitand(kind: IntKind, left: i128, right: i128) -> i128
    requires left { Represents kind left }
    requires right { Represents kind right }
    ensures value { result ≡ bitand_of kind left right }
    ensures representable { Represents kind result }
{
    of_bits(kind, bits(kind, left) & bits(kind, right))
}

/// `left | right` (C11 6.5.12p4).
pub fn bitor(kind: IntKind, left: i128, right: i128) -> i128
    requires left { Represents kind left }
    requires right { Represents kind right }
    ensures value { result ≡ bitor_of kind left right }
    ensures representable { Represents kind result }
{
    of_bits(kind, bits(kind, left) | bits(kind, right))
}

/// `left ^ right` (C11 6.5.11p4).
pub fn bitxor(kind: IntKind, left: i128, right: i128) -> i128
    requires left { Represents kind left }
    requires right { Represents kind right }
    ensures value { result ≡ bitxor_of kind left right }
    ensures representable { Represents kind result }
{
    of_bits(kind, bits(kind, left) ^ bits(kind, right))
}

/// `~value`, where `kind` is that of the promoted operand (C11 6.5.3.3p4).
pub fn not(kind: IntKind, value: i128) -> i128
    requires { Represents kind value }
    ensures value { result ≡ not_of kind value }
    ensures representable { Represents kind result }
{
    let greatest = kind.to_unsigned().greatest() as u64;
    of_bits(kind, greatest - bits(kind, value))
}

fn bits(kind: IntKind, value: i128) -> u64
    requires { Represents kind value }
    ensures value { result ≡ bits_of kind value }
    ensures at_most { result ≤ unsigned_abs (greatest_of (unsigned_of kind)) }
{
    convert(value, kind.to_unsigned()) as u64
}

fn of_bits(kind: IntKind, bits: u64) -> i128
    ensures value { result ≡ of_bits kind bits }
    ensures representable { Represents kind result }
{
    convert(i128::from(bits), kind)
}
