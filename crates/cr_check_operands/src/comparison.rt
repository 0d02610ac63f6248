ghost use Rattle.std.specs.Prelude.{◌≡◌, ◌≤◌, ℕ, length, if◌then◌else◌};
ghost use Rattle.cr_check_types.specs.Types.{Qualified};
ghost use Rattle.cr_check_constants.specs.Constants.{is_not_zero};
ghost use Rattle.cr_check_operands.specs.Values.{valued_by, valued_at, room_of, untyped};
ghost use Rattle.cr_check_operands.specs.Rules.{is_zero, int_of, an_int, order_value, equality_value};

use crate::pointed::{are_alike, are_related};
use crate::value::Value;
use cr_check_constants::{Constant, Operand, Relation, relation};
use cr_check_types::Table;
use cr_ints::IntKind;

/// `< > <= >=` (C11 6.5.8). They have integers, or pointers to types that are compatible but for qualifiers; `Unknown` for other
/// operands.
pub fn order(table: &Table, operator: Relation, left: Value, right: Value) -> Value
    requires left { room_of left ≤ length table.now }
    requires right { room_of right ≤ length table.now }
    ensures is { valued_at table.now result ≡ order_value operator (valued_at table.now left) (valued_at table.now right) }
    ensures room { room_of result ≡ 0 }
{
    match (left, right) {
        (Value::Integer(x), Value::Integer(y)) => Value::Integer(relation(operator, x, y)),
        (Value::Pointer(to), Value::Pointer(other)) => an_int_if(are_alike(table, to, other)),
        _ => Value::Unknown,
    }
}

/// `== !=` (6.5.9). They have integers, pointers to types that are compatible but for qualifiers, a pointer and a pointer to void,
/// or a pointer and a null pointer constant; `Unknown` for other operands.
pub fn equality(table: &Table, operator: Relation, left: Value, right: Value) -> Value
    requires left { room_of left ≤ length table.now }
    requires right { room_of right ≤ length table.now }
    ensures is { valued_at table.now result ≡ equality_value operator (valued_at table.now left) (valued_at table.now right) }
    ensures room { room_of result ≡ 0 }
{
    match (left, right) {
        (Value::Integer(x), Value::Integer(y)) => Value::Integer(relation(operator, x, y)),
        (Value::Pointer(to), Value::Pointer(other)) => an_int_if(are_related(table, to, other)),
        (Value::Pointer(_), Value::Integer(y)) => an_int_if(is_zero(y.constant)),
        (Value::Integer(x), Value::Pointer(_)) => an_int_if(is_zero(x.constant)),
        _ => Value::Unknown,
    }
}

// An int that is no constant, where the operands are allowed.
fn an_int_if(allowed: bool) -> Value
    ensures is { (look : ℕ → Qualified) → valued_by look result ≡ (if allowed then an_int else untyped) }
    ensures room { room_of result ≡ 0 }
{
    if allowed {
        an_int(Constant::NotConstant)
    } else {
        Value::Unknown
    }
}

/// An int that is so much of a constant.
pub(crate) fn an_int(constant: Constant) -> Value
    ensures is { (look : ℕ → Qualified) → valued_by look result ≡ int_of constant }
    ensures room { room_of result ≡ 0 }
{
    Value::Integer(Operand {
        kind: IntKind::Int,
        constant,
    })
}

/// Whether a constant is an integer constant expression of value 0.
pub(crate) fn is_zero(constant: Constant) -> bool
    ensures { result ≡ is_zero constant }
{
    match constant {
        Constant::NotConstant => false,
        Constant::Undefined => false,
        Constant::Value(value) => value == 0,
    }
}
