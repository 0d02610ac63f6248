ghost use Rattle.std.specs.Prelude.{◌≡◌, pos};
ghost use Rattle.cr_ints.specs.IntKind.{Represents};
ghost use Rattle.cr_check_constants.specs.Constants.{in_kind};
ghost use Rattle.cr_check_constants.specs.Operators.{bits_of, with_bits, computed, arithmetic_of, moved, shift_of};

use crate::constant::{Constant, Operand, ended, without_value};
use crate::convert::{common_kind, converted, promoted_kind};
use crate::operator::{Arithmetic, Shift};
use cr_ints::{IntKind, add, div, mul, rem, shl, shr, sub};

/// `* / % + - & ^ |` of two operands of integer types (C11 6.5.5, 6.5.6, 6.5.10 to 6.5.12).
pub fn arithmetic(operator: Arithmetic, left: Operand, right: Operand) -> Operand
    ensures { result ≡ arithmetic_of operator left right }
{
    let kind = common_kind(left.kind, right.kind);
    let constant = match (left.constant, right.constant) {
        (Constant::Value(x), Constant::Value(y)) => {
            computed(operator, kind, converted(kind, x), converted(kind, y))
        }
        (x, y) => without_value(x, y),
    };
    Operand { kind, constant }
}

#[tactic(auto, unfolding(crate::specs::Operators::computed))]
fn computed(operator: Arithmetic, kind: IntKind, left: i128, right: i128) -> Constant
    requires left { Represents kind left }
    requires right { Represents kind right }
    ensures { result ≡ computed operator kind left right }
{
    match operator {
        Arithmetic::Add => ended(add(kind, left, right)),
        Arithmetic::Subtract => ended(sub(kind, left, right)),
        Arithmetic::Multiply => ended(mul(kind, left, right)),
        Arithmetic::Divide => ended(div(kind, left, right)),
        Arithmetic::Remainder => ended(rem(kind, left, right)),
        Arithmetic::And => with_bits(kind, bits(kind, left) & bits(kind, right)),
        Arithmetic::Xor => with_bits(kind, bits(kind, left) ^ bits(kind, right)),
        Arithmetic::Or => with_bits(kind, bits(kind, left) | bits(kind, right)),
    }
}

// The bits of a value, from the lowest on.
fn bits(kind: IntKind, value: i128) -> u64
    ensures { result ≡ bits_of kind value }
{
    value.rem_euclid(1 << kind.width()) as u64
}

fn with_bits(kind: IntKind, bits: u64) -> Constant
    ensures { result ≡ with_bits kind bits }
{
    Constant::Value(converted(kind, i128::from(bits)))
}

/// `<< >>` of two operands of integer types (6.5.7).
pub fn shift(operator: Shift, left: Operand, right: Operand) -> Operand
    ensures { result ≡ shift_of operator left right }
{
    let kind = promoted_kind(left.kind);
    let constant = match (left.constant, right.constant) {
        (Constant::Value(x), Constant::Value(y)) => {
            let count = converted(promoted_kind(right.kind), y);
            moved(operator, kind, converted(kind, x), count)
        }
        (x, y) => without_value(x, y),
    };
    Operand { kind, constant }
}

#[tactic(auto, unfolding(crate::specs::Operators::moved))]
fn moved(operator: Shift, kind: IntKind, left: i128, count: i128) -> Constant
    requires { Represents kind left }
    ensures { result ≡ moved operator kind left count }
{
    match operator {
        Shift::Left => ended(shl(kind, left, count)),
        Shift::Right => ended(shr(kind, left, count)),
    }
}
