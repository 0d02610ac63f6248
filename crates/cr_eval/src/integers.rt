#![tactic(auto, using(crate::proofs::Answering::answers, crate::proofs::Answering::then_answers, crate::proofs::Answering::ends_answer, crate::proofs::Answering::written))]

ghost use Rattle.std.specs.Prelude.{◌≡◌, ◌↔◌, IsTrue, Ok};
ghost use Rattle.cr_ints.specs.IntKind.{IsInteger};
ghost use Rattle.cr_meaning.specs.Values.{exactly, computed, signed_by, compares};

use cr_ints::{
    IntEnd, IntKind, add, bitand, bitor, bitxor, convert, div, mul, neg, not, rem, shl, shr, sub,
};
use cr_meaning::{Operator, Relation, Sign, Value};
use cr_memory::Trap;

/// Whether a number is of some integer type's range.
#[inline(always)]
pub(crate) fn is_integer(value: i128) -> bool
    ensures { IsTrue result ↔ IsInteger value }
{
    i128::from(i64::MIN) <= value && value <= i128::from(u64::MAX)
}

/// The end of an operation in a kind as a value.
#[inline(always)]
fn exactly(kind: IntKind, end: IntEnd) -> Result<Value, Trap>
    ensures { result ≡ exactly kind end }
{
    match end {
        IntEnd::Value(value) => Ok(Value::Number(kind, value)),
        IntEnd::Undefined(number) => Err(Trap::Undefined(number)),
    }
}

/// A number of a kind, as a value.
#[inline(always)]
fn number(kind: IntKind, value: i128) -> Result<Value, Trap>
    ensures { result ≡ Ok (Value.Number kind value) }
{
    Ok(Value::Number(kind, value))
}

/// A binary operator on integers (C11 6.5.5 to 6.5.7, 6.5.10 to 6.5.12), in this kind: U1 to U5.
#[inline]
pub(crate) fn computed(op: Operator, kind: IntKind, left: i128, right: i128) -> Result<Value, Trap>
    requires left { IsInteger left }
    requires right { IsInteger right }
    ensures { result ≡ computed op kind left right }
{
    let first = convert(left, kind);
    match op {
        Operator::Multiply => exactly(kind, mul(kind, first, convert(right, kind))),
        Operator::Divide => exactly(kind, div(kind, first, convert(right, kind))),
        Operator::Remainder => exactly(kind, rem(kind, first, convert(right, kind))),
        Operator::Add => exactly(kind, add(kind, first, convert(right, kind))),
        Operator::Subtract => exactly(kind, sub(kind, first, convert(right, kind))),
        Operator::ShiftLeft => exactly(kind, shl(kind, first, right)),
        Operator::ShiftRight => exactly(kind, shr(kind, first, right)),
        Operator::And => number(kind, bitand(kind, first, convert(right, kind))),
        Operator::Xor => number(kind, bitxor(kind, first, convert(right, kind))),
        Operator::Or => number(kind, bitor(kind, first, convert(right, kind))),
    }
}

/// `+`, `-` and `~` of one operand (6.5.3.3), in this kind: U1.
pub(crate) fn signed_by(sign: Sign, kind: IntKind, value: i128) -> Result<Value, Trap>
    requires { IsInteger value }
    ensures { result ≡ signed_by sign kind value }
{
    let value = convert(value, kind);
    match sign {
        Sign::Plus => number(kind, value),
        Sign::Minus => exactly(kind, neg(kind, value)),
        Sign::Complement => number(kind, not(kind, value)),
    }
}

/// A comparison of integers (6.5.8p6, 6.5.9p3).
#[inline(always)]
pub(crate) fn compares(relation: Relation, left: i128, right: i128) -> bool
    ensures { result ≡ compares relation left right }
{
    match relation {
        Relation::Less => left < right,
        Relation::Greater => left > right,
        Relation::LessEqual => left <= right,
        Relation::GreaterEqual => left >= right,
        Relation::Equal => left == right,
        Relation::NotEqual => left != right,
    }
}
