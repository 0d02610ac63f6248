ghost use Rattle.std.specs.Prelude.{◌≡◌, ◌^◌, pos, ◌*ℤ◌, ◌≤ℤ◌, ◌<ℤ◌, unsigned_abs, ◌≢◌, int_div, int_rem};
ghost use Rattle.cr_ints.specs.IntKind.{Represents, IsInteger};
ghost use Rattle.cr_ints.specs.Operations.{IfValue, end_of, add_of, sub_of, mul_of, neg_of, div_of, rem_of, is_shift_count, shl_of, shr_of};

use crate::conversion::residue;
use crate::end::{
    IntEnd, LEFT_SHIFT, NOT_REPRESENTABLE, QUOTIENT_NOT_REPRESENTABLE, SHIFT_COUNT, ZERO_DIVISOR,
};
use crate::kind::IntKind;

/// `left + right` (C11 6.5.6p5).
pub fn add(kind: IntKind, left: i128, right: i128) -> IntEnd
    requires left { Represents kind left }
    requires right { Represents kind right }
    ensures value { result ≡ add_of kind left right }
    ensures representable { IfValue result (Represents kind) }
{
    end_of(kind, left + right)
}

/// `left - right` (C11 6.5.6p6).
pub fn sub(kind: IntKind, left: i128, right: i128) -> IntEnd
    requires left { Represents kind left }
    requires right { Represents kind right }
    ensures value { result ≡ sub_of kind left right }
    ensures representable { IfValue result (Represents kind) }
{
    end_of(kind, left - right)
}

/// `left * right` (C11 6.5.5p4).
pub fn mul(kind: IntKind, left: i128, right: i128) -> IntEnd
    requires left { Represents kind left }
    requires right { Represents kind right }
    ensures value { result ≡ mul_of kind left right }
    ensures representable { IfValue result (Represents kind) }
{
    if kind.is_signed() {
        end_of(kind, left * right)
    } else {
        // The product of two unsigned operands can pass the greatest `i128`.
        let product = left as u128 * right as u128;
        IntEnd::Value((product & u128::from(kind.mask())) as i128)
    }
}

// What a sum or a product of integers without bounds becomes.
fn end_of(kind: IntKind, exact: i128) -> IntEnd
    ensures value { result ≡ end_of kind exact }
    ensures representable { IfValue result (Represents kind) }
{
    if !kind.is_signed() {
        IntEnd::Value(residue(exact, kind))
    } else if kind.can_represent(exact) {
        IntEnd::Value(exact)
    } else {
        IntEnd::Undefined(NOT_REPRESENTABLE)
    }
}

/// `-value`, where `kind` is that of the promoted operand (C11 6.5.3.3p3).
pub fn neg(kind: IntKind, value: i128) -> IntEnd
    requires { Represents kind value }
    ensures value { result ≡ neg_of kind value }
    ensures representable { IfValue result (Represents kind) }
{
    end_of(kind, -value)
}

/// `left / right` (C11 6.5.5p5 and p6).
pub fn div(kind: IntKind, left: i128, right: i128) -> IntEnd
    requires left { Represents kind left }
    requires right { Represents kind right }
    ensures value { result ≡ div_of kind left right }
    ensures representable { IfValue result (Represents kind) }
{
    if right == 0 {
        return IntEnd::Undefined(ZERO_DIVISOR);
    }
    let quotient = quotient(left, right);
    if kind.can_represent(quotient) {
        IntEnd::Value(quotient)
    } else {
        IntEnd::Undefined(QUOTIENT_NOT_REPRESENTABLE)
    }
}

/// `left % right` (C11 6.5.5p5 and p6): undefined where the quotient is.
pub fn rem(kind: IntKind, left: i128, right: i128) -> IntEnd
    requires left { Represents kind left }
    requires right { Represents kind right }
    ensures value { result ≡ rem_of kind left right }
    ensures representable { IfValue result (Represents kind) }
{
    if right == 0 {
        IntEnd::Undefined(ZERO_DIVISOR)
    } else if kind.can_represent(quotient(left, right)) {
        IntEnd::Value(remainder(left, right))
    } else {
        IntEnd::Undefined(QUOTIENT_NOT_REPRESENTABLE)
    }
}

fn quotient(left: i128, right: i128) -> i128
    requires left { IsInteger left }
    requires right { IsInteger right }
    requires not_zero { unsigned_abs right ≢ 0 }
    ensures { result ≡ int_div left right }
{
    if left >= 0 && right > 0 {
        // Both fit in 64 bits, and a division of these costs a fraction of one of 128.
        i128::from(left as u64 / right as u64)
    } else {
        left / right
    }
}

fn remainder(left: i128, right: i128) -> i128
    requires left { IsInteger left }
    requires right { IsInteger right }
    requires not_zero { unsigned_abs right ≢ 0 }
    ensures { result ≡ int_rem left right }
{
    if left >= 0 && right > 0 {
        i128::from(left as u64 % right as u64)
    } else {
        left % right
    }
}

/// `left << count` (C11 6.5.7p3 and p4), where `kind` is that of the promoted left operand.
pub fn shl(kind: IntKind, left: i128, count: i128) -> IntEnd
    requires { Represents kind left }
    ensures value { result ≡ shl_of kind left count }
    ensures representable { IfValue result (Represents kind) }
{
    if !is_shift_count(kind, count) {
        return IntEnd::Undefined(SHIFT_COUNT);
    }
    let exact = times_power_of_two(left, count);
    if !kind.is_signed() {
        IntEnd::Value(residue(exact, kind))
    } else if left >= 0 && kind.can_represent(exact) {
        IntEnd::Value(exact)
    } else {
        IntEnd::Undefined(LEFT_SHIFT)
    }
}

/// `left >> count` (C11 6.5.7p3 and p5), where `kind` is that of the promoted left operand.
pub fn shr(kind: IntKind, left: i128, count: i128) -> IntEnd
    requires { Represents kind left }
    ensures value { result ≡ shr_of kind left count }
    ensures representable { IfValue result (Represents kind) }
{
    if is_shift_count(kind, count) {
        IntEnd::Value(left >> count)
    } else {
        IntEnd::Undefined(SHIFT_COUNT)
    }
}

fn times_power_of_two(left: i128, count: i128) -> i128
    requires left { IsInteger left }
    requires not_negative { pos 0 ≤ℤ count }
    requires below_width { count <ℤ pos 64 }
    ensures { result ≡ left *ℤ pos (2 ^ unsigned_abs count) }
{
    left * (1 << count)
}

fn is_shift_count(kind: IntKind, count: i128) -> bool
    ensures { result ≡ is_shift_count kind count }
{
    0 <= count && count < i128::from(kind.width())
}
