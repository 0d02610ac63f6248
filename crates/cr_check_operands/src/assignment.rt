ghost use Rattle.std.specs.Prelude.{◌≡◌, ◌<◌, ◌≤◌, ℕ, IfSome, false, length, slice_index_or};
ghost use Rattle.cr_check_types.specs.Types.{Qualified, type_at};
ghost use Rattle.cr_check_types.specs.Relations.{is_complete_at};
ghost use Rattle.cr_check_operands.specs.Values.{valued_by, valued_at, room_of, seen_at};
ghost use Rattle.cr_check_operands.specs.Rules.{is_bool, is_there, passable, assignable, assigned_value, updated_by, updated_value, stepped_by, stepped_value};
ghost use Rattle.cr_check_operands.specs.Places.{found_by, is_fixed, is_changeable, is_modifiable_seen, stored_value, assigned, updated, stepped};

use crate::arithmetic::moved;
use crate::comparison::is_zero;
use crate::fact::{Fact, value_in_row};
use crate::pointed::{are_related, keeps_qualifiers};
use crate::value::Value;
use cr_check_constants::Constant;
use cr_check_types::Table;
use cr_ints::IntKind;
use cr_rows::entry_at;
use cr_syntax::{CType, Node};

/// Whether a value may be assigned to a place whose value is the target (C11 6.5.16.1p1). So it is with an argument and its
/// parameter, and with what a function returns.
pub fn is_assignable(table: &Table, target: Value, operand: Value) -> bool
    requires target { room_of target ≤ length table.now }
    requires operand { room_of operand ≤ length table.now }
    ensures { result ≡ assignable (valued_at table.now target) (valued_at table.now operand) }
{
    match (target, operand) {
        (Value::Integer(_), Value::Integer(_)) => true,
        (Value::Integer(x), Value::Pointer(_)) => is_bool(x.kind),
        (Value::Pointer(to), Value::Pointer(from)) => {
            are_related(table, to, from) && keeps_qualifiers(table, to, from)
        }
        (Value::Pointer(_), Value::Integer(y)) => is_zero(y.constant),
        (Value::Structure(one), Value::Structure(other)) => one == other,
        _ => false,
    }
}

/// Whether an argument may be passed (6.5.2.2p2). The parameter's type is in the row; without one the argument stands behind the
/// parameters, where a `...` takes it.
pub fn is_passable(table: &Table, parameter: Option<u32>, argument: Value) -> bool
    requires parameter { IfSome parameter (λ r. r < length table.now) }
    requires argument { room_of argument ≤ length table.now }
    ensures { result ≡ passable (found_by (type_at table.now) parameter) (valued_at table.now argument) }
{
    match parameter {
        Some(row) => {
            let target = value_in_row(table, row, Constant::NotConstant);
            is_assignable(table, target, argument)
        }
        None => is_there(argument),
    }
}

fn is_there(argument: Value) -> bool
    ensures { (look : ℕ → Qualified) → result ≡ is_there (valued_by look argument) }
{
    match argument {
        Value::Void => false,
        _ => true,
    }
}

pub(crate) fn is_bool(kind: IntKind) -> bool
    ensures { result ≡ is_bool kind }
{
    match kind {
        IntKind::Bool => true,
        _ => false,
    }
}

/// Whether a place may be assigned to (6.3.2.1p1). `fixed` has for each node whether it is a structure with a constant member, also
/// in a member or an element of one; structures have to be complete before the node `at`.
pub fn is_modifiable(table: &Table, nodes: &[Node], at: u32, fixed: &[bool], place: Fact) -> bool
    requires { place.row < length table.now }
    ensures { result ≡ is_modifiable_seen (is_complete_at nodes.now at) (λ n. slice_index_or fixed.now n false) (seen_at table.now place) }
{
    place.lvalue
        && is_changeable(table, fixed, place.row)
        && table.is_complete(nodes, at, place.row)
}

fn is_changeable(table: &Table, fixed: &[bool], row: u32) -> bool
    requires { row < length table.now }
    ensures { result ≡ is_changeable (λ n. slice_index_or fixed.now n false) (type_at table.now row) }
{
    let shape = table.shape(row);
    match shape.of {
        CType::Array(..) => false,
        CType::Pointer(_) => !shape.constant,
        of => !shape.constant && !is_fixed(fixed, of),
    }
}

fn is_fixed(fixed: &[bool], of: CType) -> bool
    ensures { result ≡ is_fixed (λ n. slice_index_or fixed.now n false) of }
{
    match of {
        CType::Struct(node) => entry_at(fixed, node as usize, false),
        _ => false,
    }
}

/// `=` (6.5.16.1): a value of the place's type. `Unknown` where the place isn't modifiable, or the value may not be assigned to it.
pub fn assign(
    table: &Table,
    nodes: &[Node],
    at: u32,
    fixed: &[bool],
    place: Fact,
    operand: Value,
) -> Value
    requires place { place.row < length table.now }
    requires operand { room_of operand ≤ length table.now }
    ensures is { valued_at table.now result ≡ assigned (is_complete_at nodes.now at) (λ n. slice_index_or fixed.now n false) (seen_at table.now place) (valued_at table.now operand) }
    ensures within { room_of result ≤ length table.now }
{
    let modifiable = is_modifiable(table, nodes, at, fixed, place);
    assigned(table, modifiable, stored(table, place), operand)
}

// The value that an assignment gives: of the place's type, and no constant.
fn stored(table: &Table, place: Fact) -> Value
    requires { place.row < length table.now }
    ensures is { valued_at table.now result ≡ stored_value (seen_at table.now place) }
    ensures within { room_of result ≤ length table.now }
{
    value_in_row(table, place.row, Constant::NotConstant)
}

fn assigned(table: &Table, modifiable: bool, target: Value, operand: Value) -> Value
    requires target { room_of target ≤ length table.now }
    requires operand { room_of operand ≤ length table.now }
    ensures is { valued_at table.now result ≡ assigned_value modifiable (valued_at table.now target) (valued_at table.now operand) }
    ensures within { room_of result ≤ length table.now }
{
    if modifiable && is_assignable(table, target, operand) {
        target
    } else {
        Value::Unknown
    }
}

/// Compound assignment (6.5.16.2), which `moves` where it is `+=` or `-=`: a value of the place's type. It has a modifiable place
/// and two integers, or, where it moves, a pointer to a complete type and an integer; `Unknown` for other operands.
pub fn compound(
    table: &Table,
    nodes: &[Node],
    at: u32,
    fixed: &[bool],
    moves: bool,
    place: Fact,
    operand: Value,
) -> Value
    requires place { place.row < length table.now }
    requires operand { room_of operand ≤ length table.now }
    ensures is { valued_at table.now result ≡ updated (is_complete_at nodes.now at) (λ n. slice_index_or fixed.now n false) moves (seen_at table.now place) (valued_at table.now operand) }
    ensures within { room_of result ≤ length table.now }
{
    if is_modifiable(table, nodes, at, fixed, place) {
        updated(table, nodes, at, moves, stored(table, place), operand)
    } else {
        Value::Unknown
    }
}

fn updated(
    table: &Table,
    nodes: &[Node],
    at: u32,
    moves: bool,
    target: Value,
    operand: Value,
) -> Value
    requires target { room_of target ≤ length table.now }
    requires operand { room_of operand ≤ length table.now }
    ensures is { valued_at table.now result ≡ updated_by (is_complete_at nodes.now at) moves (valued_at table.now target) (valued_at table.now operand) }
    ensures within { room_of result ≤ length table.now }
{
    match (target, operand) {
        (Value::Integer(_), Value::Integer(_)) => target,
        (Value::Pointer(to), Value::Integer(_)) if moves => moved(table, nodes, at, to),
        _ => Value::Unknown,
    }
}

/// `++` and `--`, before or behind their operand (6.5.2.4, 6.5.3.1): a value of the place's type. They have a modifiable place of an
/// integer type, or of one of pointers to a complete type; `Unknown` for another operand.
pub fn increment(table: &Table, nodes: &[Node], at: u32, fixed: &[bool], place: Fact) -> Value
    requires { place.row < length table.now }
    ensures is { valued_at table.now result ≡ stepped (is_complete_at nodes.now at) (λ n. slice_index_or fixed.now n false) (seen_at table.now place) }
    ensures within { room_of result ≤ length table.now }
{
    if is_modifiable(table, nodes, at, fixed, place) {
        stepped(table, nodes, at, stored(table, place))
    } else {
        Value::Unknown
    }
}

fn stepped(table: &Table, nodes: &[Node], at: u32, target: Value) -> Value
    requires { room_of target ≤ length table.now }
    ensures is { valued_at table.now result ≡ stepped_by (is_complete_at nodes.now at) (valued_at table.now target) }
    ensures within { room_of result ≤ length table.now }
{
    match target {
        Value::Integer(_) => target,
        Value::Pointer(to) => moved(table, nodes, at, to),
        _ => Value::Unknown,
    }
}
