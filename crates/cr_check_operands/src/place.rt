ghost use Rattle.std.specs.Prelude.{◌≡◌, ◌<◌, ◌≤◌, IfOk, IfSome, OnOk, length};
ghost use Rattle.cr_check_types.specs.Types.{type_at, Grows};
ghost use Rattle.cr_check_types.specs.Relations.{is_complete_at};
ghost use Rattle.cr_check_operands.specs.Values.{valued_at, room_of, seen_at, place_of, no_type};
ghost use Rattle.cr_check_operands.specs.Places.{address_value, followed, dereferenced, subscripted, structure_in, found_by, member_in, member_of, pointed_member_of, text_of};

use crate::choice::qualified_like;
use crate::fact::Fact;
use crate::value::Value;
use cr_check_constants::Constant;
use cr_check_types::{Shape, Table};
use cr_ints::IntKind;
use cr_syntax::{CType, Node};
use std::alloc::AllocError;

/// An object of the type of a row, as an identifier names it (C11 6.5.1p2).
pub fn object(table: &Table, row: u32, register: bool) -> Fact
    ensures row { result.row ≡ row }
    ensures is { seen_at table.now result ≡ place_of (type_at table.now row) register }
{
    Fact {
        row,
        lvalue: true,
        register,
        constant: Constant::NotConstant,
        null: false,
    }
}

/// A string literal of so many bytes, with its closing zero (6.4.5p6).
pub fn text(table: &mut Table, count: u64) -> Result<Fact, AllocError>
    ensures within { IfOk result (λ f. f.row < length table.new) }
    ensures is { IfOk result (λ f. seen_at table.new f ≡ text_of count) }
    ensures grows { OnOk result (Grows table.old table.new) }
{
    let char = table.add(Shape::plain(CType::Int(IntKind::Char)))?;
    let row = table.add(Shape::plain(CType::Array(char, count)))?;
    Ok(object(table, row, false))
}

/// Unary `&` (6.5.3.2): the address of a place that isn't declared `register`; `Unknown` for another operand.
pub fn address(table: &Table, operand: Fact) -> Value
    requires { operand.row < length table.now }
    ensures is { valued_at table.now result ≡ address_value (seen_at table.now operand) }
    ensures within { room_of result ≤ length table.now }
{
    if operand.lvalue && !operand.register {
        Value::Pointer(operand.row)
    } else {
        Value::Unknown
    }
}

/// Unary `*` (6.5.3.2), at a node, before which structures have to be complete: the place that a pointer to a complete type points
/// to; no type for another operand.
pub fn dereference(
    table: &mut Table,
    nodes: &[Node],
    at: u32,
    operand: Value,
) -> Result<Fact, AllocError>
    requires { room_of operand ≤ length table.old }
    ensures within { IfOk result (λ f. f.row < length table.new) }
    ensures is { IfOk result (λ f. seen_at table.new f ≡ dereferenced (is_complete_at nodes.now at) (valued_at table.old operand)) }
    ensures grows { OnOk result (Grows table.old table.new) }
{
    match operand {
        Value::Pointer(to) => followed(table, nodes, at, to),
        _ => without_type(table),
    }
}

fn followed(table: &mut Table, nodes: &[Node], at: u32, to: u32) -> Result<Fact, AllocError>
    requires { to < length table.old }
    ensures within { IfOk result (λ f. f.row < length table.new) }
    ensures is { IfOk result (λ f. seen_at table.new f ≡ followed (is_complete_at nodes.now at) (type_at table.old to)) }
    ensures grows { OnOk result (Grows table.old table.new) }
{
    if table.is_complete(nodes, at, to) {
        Ok(object(table, to, false))
    } else {
        without_type(table)
    }
}

// What has no type.
fn without_type(table: &mut Table) -> Result<Fact, AllocError>
    ensures within { IfOk result (λ f. f.row < length table.new) }
    ensures is { IfOk result (λ f. seen_at table.new f ≡ no_type) }
    ensures grows { OnOk result (Grows table.old table.new) }
{
    let row = table.add(Shape::plain(CType::Unknown))?;
    Ok(Fact {
        row,
        lvalue: false,
        register: false,
        constant: Constant::NotConstant,
        null: false,
    })
}

/// A subscript (6.5.2.1), at a node: the place of an element, by a pointer to a complete type and an integer in either order; no type
/// for other operands.
pub fn subscript(
    table: &mut Table,
    nodes: &[Node],
    at: u32,
    left: Value,
    right: Value,
) -> Result<Fact, AllocError>
    requires left { room_of left ≤ length table.old }
    requires right { room_of right ≤ length table.old }
    ensures within { IfOk result (λ f. f.row < length table.new) }
    ensures is { IfOk result (λ f. seen_at table.new f ≡ subscripted (is_complete_at nodes.now at) (valued_at table.old left) (valued_at table.old right)) }
    ensures grows { OnOk result (Grows table.old table.new) }
{
    match (left, right) {
        (Value::Pointer(to), Value::Integer(_)) => followed(table, nodes, at, to),
        (Value::Integer(_), Value::Pointer(to)) => followed(table, nodes, at, to),
        _ => without_type(table),
    }
}

/// The node of the structure that a type is, in which a member is looked for.
pub fn structure_at(table: &Table, row: u32) -> Option<u32>
    requires { row < length table.now }
    ensures { result ≡ structure_in (type_at table.now row) }
{
    match table.shape(row).of {
        CType::Struct(node) => Some(node),
        _ => None,
    }
}

/// `.` (6.5.2.3): the member of a structure, whose type is in the row, if it was found. It is a place where the structure is one.
pub fn member(table: &mut Table, whole: Fact, found: Option<u32>) -> Result<Fact, AllocError>
    requires whole { whole.row < length table.old }
    requires found { IfSome found (λ r. r < length table.old) }
    ensures within { IfOk result (λ f. f.row < length table.new) }
    ensures is { IfOk result (λ f. seen_at table.new f ≡ member_of (found_by (type_at table.old) found) (seen_at table.old whole)) }
    ensures grows { OnOk result (Grows table.old table.new) }
{
    member_in(table, found, whole.row, whole.lvalue, whole.register)
}

/// `->` (6.5.2.3): the member, if it was found, of the structure that a pointer points to.
pub fn pointed_member(
    table: &mut Table,
    operand: Value,
    found: Option<u32>,
) -> Result<Fact, AllocError>
    requires operand { room_of operand ≤ length table.old }
    requires found { IfSome found (λ r. r < length table.old) }
    ensures within { IfOk result (λ f. f.row < length table.new) }
    ensures is { IfOk result (λ f. seen_at table.new f ≡ pointed_member_of (found_by (type_at table.old) found) (valued_at table.old operand)) }
    ensures grows { OnOk result (Grows table.old table.new) }
{
    match operand {
        Value::Pointer(to) => member_in(table, found, to, true, false),
        _ => without_type(table),
    }
}

// A member of a whole, with the whole's qualifiers.
fn member_in(
    table: &mut Table,
    found: Option<u32>,
    whole: u32,
    lvalue: bool,
    register: bool,
) -> Result<Fact, AllocError>
    requires whole { whole < length table.old }
    requires found { IfSome found (λ r. r < length table.old) }
    ensures within { IfOk result (λ f. f.row < length table.new) }
    ensures is { IfOk result (λ f. seen_at table.new f ≡ member_in (found_by (type_at table.old) found) (type_at table.old whole) lvalue register) }
    ensures grows { OnOk result (Grows table.old table.new) }
{
    match found {
        Some(row) => {
            let row = qualified_like(table, whole, row)?;
            Ok(Fact {
                row,
                lvalue,
                register,
                constant: Constant::NotConstant,
                null: false,
            })
        }
        None => without_type(table),
    }
}
