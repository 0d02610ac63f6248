ghost use Rattle.std.specs.Prelude.{◌≡◌, ℕ};
ghost use Rattle.cr_check_types.specs.Types.{Qualified};
ghost use Rattle.cr_check_operands.specs.Values.{valued_by, room_of};
ghost use Rattle.cr_check_operands.specs.Rules.{scalar_constant, constant_or_none, logical_constant, logical_value, negated_value, signed_value, comma_value, is_scalar_value, is_integer_value};

use crate::comparison::an_int;
use crate::value::Value;
use cr_check_constants::{
    Constant, Sign, comma as comma_constant, logical_and, logical_or, not, unary,
};

/// A logical operator of two operands.
#[derive(Clone, Copy)]
pub enum Junction {
    /// `&&`
    Conjunction,
    /// `||`
    Disjunction,
}

/// `&& ||` (C11 6.5.13, 6.5.14). They have scalars; `Unknown` where an operand is none.
pub fn logical(operator: Junction, left: Value, right: Value) -> Value
    ensures is { (look : ℕ → Qualified) → valued_by look result ≡ logical_value operator (valued_by look left) (valued_by look right) }
    ensures room { room_of result ≡ 0 }
{
    match (scalar_constant(left), scalar_constant(right)) {
        (Some(x), Some(y)) => an_int(logical_constant(operator, x, y)),
        _ => Value::Unknown,
    }
}

fn logical_constant(operator: Junction, left: Constant, right: Constant) -> Constant
    ensures { result ≡ logical_constant operator left right }
{
    match operator {
        Junction::Conjunction => logical_and(left, right),
        Junction::Disjunction => logical_or(left, right),
    }
}

/// What a scalar is as a constant; None where the value is no scalar (6.2.5p21).
pub(crate) fn scalar_constant(operand: Value) -> Option<Constant>
    ensures { (look : ℕ → Qualified) → result ≡ scalar_constant (valued_by look operand) }
{
    match operand {
        Value::Integer(x) => Some(x.constant),
        Value::Pointer(_) => Some(Constant::NotConstant),
        Value::Structure(_) => None,
        Value::Array(_) => None,
        Value::Void => None,
        Value::Unknown => None,
    }
}

/// `!` (6.5.3.3). It has a scalar; `Unknown` where the operand is none.
pub fn negated(operand: Value) -> Value
    ensures is { (look : ℕ → Qualified) → valued_by look result ≡ negated_value (valued_by look operand) }
    ensures room { room_of result ≡ 0 }
{
    match scalar_constant(operand) {
        Some(constant) => Value::Integer(not(constant)),
        None => Value::Unknown,
    }
}

/// Unary `+ - ~` (6.5.3.3). They have an integer; `Unknown` where the operand is none.
pub fn signed(operator: Sign, operand: Value) -> Value
    ensures is { (look : ℕ → Qualified) → valued_by look result ≡ signed_value operator (valued_by look operand) }
    ensures room { room_of result ≡ 0 }
{
    match operand {
        Value::Integer(x) => Value::Integer(unary(operator, x)),
        _ => Value::Unknown,
    }
}

/// A comma expression (6.5.17): its right operand.
pub fn comma(left: Value, right: Value) -> Value
    ensures is { (look : ℕ → Qualified) → valued_by look result ≡ comma_value (valued_by look left) (valued_by look right) }
    ensures room { room_of result ≡ room_of right }
{
    match right {
        Value::Integer(y) => Value::Integer(comma_constant(constant_or_none(left), y)),
        _ => right,
    }
}

fn constant_or_none(operand: Value) -> Constant
    ensures { (look : ℕ → Qualified) → result ≡ constant_or_none (scalar_constant (valued_by look operand)) }
{
    match scalar_constant(operand) {
        Some(constant) => constant,
        None => Constant::NotConstant,
    }
}

/// Whether a value is a scalar, as a controlling expression has to be (6.8.4.1p1, 6.8.5p2).
pub fn is_scalar(operand: Value) -> bool
    ensures { (look : ℕ → Qualified) → result ≡ is_scalar_value (valued_by look operand) }
{
    match operand {
        Value::Integer(_) => true,
        Value::Pointer(_) => true,
        _ => false,
    }
}

/// Whether a value is an integer, as that of a `switch` has to be (6.8.4.2p1).
pub fn is_integer(operand: Value) -> bool
    ensures { (look : ℕ → Qualified) → result ≡ is_integer_value (valued_by look operand) }
{
    match operand {
        Value::Integer(_) => true,
        _ => false,
    }
}
