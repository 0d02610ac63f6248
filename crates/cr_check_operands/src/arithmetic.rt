ghost use Rattle.std.specs.Prelude.{◌≡◌, ◌<◌, ◌≤◌, ℕ, length};
ghost use Rattle.cr_check_types.specs.Types.{Qualified, type_at};
ghost use Rattle.cr_check_types.specs.Relations.{is_complete_at};
ghost use Rattle.cr_check_operands.specs.Values.{valued_by, valued_at, room_of};
ghost use Rattle.cr_check_operands.specs.Rules.{integers_value, shifted_value, moved, sum_value, distance, difference_value};

use crate::pointed::are_alike;
use crate::value::Value;
use cr_check_constants::{Arithmetic, Constant, Operand, Shift, arithmetic, shift};
use cr_check_types::Table;
use cr_ints::IntKind;
use cr_syntax::Node;

/// `* / % & ^ |` (C11 6.5.5, 6.5.10 to 6.5.12). They have integers; `Unknown` where an operand is none.
pub fn integers(operator: Arithmetic, left: Value, right: Value) -> Value
    ensures is { (look : ℕ → Qualified) → valued_by look result ≡ integers_value operator (valued_by look left) (valued_by look right) }
    ensures room { room_of result ≡ 0 }
{
    match (left, right) {
        (Value::Integer(x), Value::Integer(y)) => Value::Integer(arithmetic(operator, x, y)),
        _ => Value::Unknown,
    }
}

/// `<< >>` (6.5.7). They have integers; `Unknown` where an operand is none.
pub fn shifted(operator: Shift, left: Value, right: Value) -> Value
    ensures is { (look : ℕ → Qualified) → valued_by look result ≡ shifted_value operator (valued_by look left) (valued_by look right) }
    ensures room { room_of result ≡ 0 }
{
    match (left, right) {
        (Value::Integer(x), Value::Integer(y)) => Value::Integer(shift(operator, x, y)),
        _ => Value::Unknown,
    }
}

/// `+` (6.5.6p2), at a node, before which structures have to be complete. It has integers, or a pointer to a complete type and
/// an integer; `Unknown` for other operands.
pub fn sum(table: &Table, nodes: &[Node], at: u32, left: Value, right: Value) -> Value
    requires left { room_of left ≤ length table.now }
    requires right { room_of right ≤ length table.now }
    ensures is { valued_at table.now result ≡ sum_value (is_complete_at nodes.now at) (valued_at table.now left) (valued_at table.now right) }
    ensures within { room_of result ≤ length table.now }
{
    match (left, right) {
        (Value::Integer(x), Value::Integer(y)) => {
            Value::Integer(arithmetic(Arithmetic::Add, x, y))
        }
        (Value::Pointer(to), Value::Integer(_)) => moved(table, nodes, at, to),
        (Value::Integer(_), Value::Pointer(to)) => moved(table, nodes, at, to),
        _ => Value::Unknown,
    }
}

// A pointer that an integer is added to or taken from.
pub(crate) fn moved(table: &Table, nodes: &[Node], at: u32, to: u32) -> Value
    requires { to < length table.now }
    ensures is { valued_at table.now result ≡ moved (is_complete_at nodes.now at) (type_at table.now to) }
    ensures within { room_of result ≤ length table.now }
{
    if table.is_complete(nodes, at, to) {
        Value::Pointer(to)
    } else {
        Value::Unknown
    }
}

/// Binary `-` (6.5.6p3). It has integers, a pointer to a complete type and an integer, or two pointers to complete types that are
/// compatible but for qualifiers; `Unknown` for other operands.
pub fn difference(table: &Table, nodes: &[Node], at: u32, left: Value, right: Value) -> Value
    requires left { room_of left ≤ length table.now }
    requires right { room_of right ≤ length table.now }
    ensures is { valued_at table.now result ≡ difference_value (is_complete_at nodes.now at) (valued_at table.now left) (valued_at table.now right) }
    ensures within { room_of result ≤ length table.now }
{
    match (left, right) {
        (Value::Integer(x), Value::Integer(y)) => {
            Value::Integer(arithmetic(Arithmetic::Subtract, x, y))
        }
        (Value::Pointer(to), Value::Integer(_)) => moved(table, nodes, at, to),
        (Value::Pointer(to), Value::Pointer(from)) => distance(table, nodes, at, to, from),
        _ => Value::Unknown,
    }
}

fn distance(table: &Table, nodes: &[Node], at: u32, to: u32, from: u32) -> Value
    requires to { to < length table.now }
    requires from { from < length table.now }
    ensures is { valued_at table.now result ≡ distance (is_complete_at nodes.now at) (type_at table.now to) (type_at table.now from) }
    ensures room { room_of result ≡ 0 }
{
    if table.is_complete(nodes, at, to)
        && table.is_complete(nodes, at, from)
        && are_alike(table, to, from)
    {
        Value::Integer(Operand {
            kind: IntKind::Long,
            constant: Constant::NotConstant,
        })
    } else {
        Value::Unknown
    }
}
