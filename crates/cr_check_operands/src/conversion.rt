ghost use Rattle.std.specs.Prelude.{◌≡◌, ◌<◌, ◌≤◌, length};
ghost use Rattle.cr_check_types.specs.Types.{type_at};
ghost use Rattle.cr_check_types.specs.Relations.{is_complete_at};
ghost use Rattle.cr_check_types.specs.Layouts.{layout_of};
ghost use Rattle.cr_check_operands.specs.Values.{valued_at, room_of};
ghost use Rattle.cr_check_operands.specs.Rules.{target_of, cast_by, cast_value, is_null_by, is_null_cast_of, size_value};

use crate::assignment::is_bool;
use crate::comparison::is_zero;
use crate::fact::value_in_row;
use crate::pointed::{is_plain_void, keeps_volatile};
use crate::value::Value;
use cr_check_constants::{Constant, Operand, cast as cast_constant, size as size_constant};
use cr_check_types::{Layout, Table};
use cr_syntax::{CType, Node};

/// A cast (C11 6.5.4) to the type of a row: to void, from an integer to an integer or a pointer to `_Bool`, from the constant 0 to a
/// pointer, and from pointer to pointer where no `volatile` is taken off what is pointed to; `Unknown` for all others.
pub fn cast(table: &Table, row: u32, operand: Value) -> Value
    requires row { row < length table.now }
    requires operand { room_of operand ≤ length table.now }
    ensures is { valued_at table.now result ≡ cast_value (type_at table.now row) (valued_at table.now operand) }
    ensures within { room_of result ≤ length table.now }
{
    cast_to(table, target(table, row), operand)
}

// The value of the type that is cast to.
fn target(table: &Table, row: u32) -> Value
    requires { row < length table.now }
    ensures is { valued_at table.now result ≡ target_of (type_at table.now row) }
    ensures within { room_of result ≤ length table.now }
{
    match table.shape(row).of {
        CType::Array(..) => Value::Unknown,
        _ => value_in_row(table, row, Constant::NotConstant),
    }
}

fn cast_to(table: &Table, target: Value, operand: Value) -> Value
    requires target { room_of target ≤ length table.now }
    requires operand { room_of operand ≤ length table.now }
    ensures is { valued_at table.now result ≡ cast_by (valued_at table.now target) (valued_at table.now operand) }
    ensures within { room_of result ≤ length table.now }
{
    match (target, operand) {
        (Value::Void, Value::Unknown) => Value::Unknown,
        (Value::Void, _) => Value::Void,
        (Value::Integer(x), Value::Integer(y)) => {
            Value::Integer(cast_constant(x.kind, y.constant))
        }
        (Value::Integer(x), Value::Pointer(_)) if is_bool(x.kind) => Value::Integer(Operand {
            kind: x.kind,
            constant: Constant::NotConstant,
        }),
        (Value::Pointer(to), Value::Integer(y)) if is_zero(y.constant) => Value::Pointer(to),
        (Value::Pointer(to), Value::Pointer(from)) if keeps_volatile(table, to, from) => {
            Value::Pointer(to)
        }
        _ => Value::Unknown,
    }
}

/// Whether a cast to the type of a row makes a null pointer constant (6.3.2.3p3): it is one of the constant 0 to `void *`.
pub fn is_null_cast(table: &Table, row: u32, operand: Value) -> bool
    requires row { row < length table.now }
    ensures { result ≡ is_null_cast_of (type_at table.now row) (valued_at table.now operand) }
{
    match (target(table, row), operand) {
        (Value::Pointer(to), Value::Integer(y)) => {
            is_plain_void(table, to) && is_zero(y.constant)
        }
        _ => false,
    }
}

/// `sizeof` of the type of a row, at a node (6.5.3.4). `layouts` has the layout of each structure at its node. `Unknown` where the
/// type isn't complete there.
pub fn size(table: &Table, nodes: &[Node], at: u32, layouts: &[Layout], row: u32) -> Value
    requires { row < length table.now }
    ensures is { valued_at table.now result ≡ size_value (is_complete_at nodes.now at (type_at table.now row)) (layout_of layouts.now (type_at table.now row)).size }
    ensures room { room_of result ≡ 0 }
{
    if table.is_complete(nodes, at, row) {
        Value::Integer(size_constant(table.layout(layouts, row).size))
    } else {
        Value::Unknown
    }
}
