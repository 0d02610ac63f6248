ghost use Rattle.std.specs.Prelude.{◌≡◌, ◌<◌, ◌≤◌, IfOk, OnOk, false, length};
ghost use Rattle.cr_check_types.specs.Types.{type_at, IsRow, Grows};
ghost use Rattle.cr_check_operands.specs.Values.{valued_at, room_of, value_in, value_beside_places, value_of_seen, type_of_value, constant_of_value, seen_at, seen_of};

use crate::value::Value;
use cr_check_constants::{Constant, Operand};
use cr_check_types::{Shape, Table};
use cr_syntax::CType;
use std::alloc::AllocError;

/// What an expression has.
#[derive(Clone, Copy)]
pub struct Fact {
    /// The row of its type. It is that of no type where a constraint of the expression, or of one in it, is broken.
    pub row: u32,
    /// Whether it is a place (C11 6.3.2.1p1).
    pub lvalue: bool,
    /// Whether that place is part of an object declared `register`.
    pub register: bool,
    /// What it is as an integer constant expression.
    pub constant: Constant,
    /// Whether it is the constant 0 cast to `void *` (6.3.2.3p3).
    pub null: bool,
}

/// The value of an expression (C11 6.3.2.1): of a place what it holds, and of an array that is one the address of its first element.
pub fn value_of(table: &Table, fact: Fact) -> Value
    requires { fact.row < length table.now }
    ensures is { valued_at table.now result ≡ value_of_seen (seen_at table.now fact) }
    ensures within { room_of result ≤ length table.now }
{
    if fact.lvalue {
        value_in_row(table, fact.row, fact.constant)
    } else {
        value_beside_places(table, fact.row, fact.constant)
    }
}

// The value of an expression that is no place.
fn value_beside_places(table: &Table, row: u32, constant: Constant) -> Value
    requires { row < length table.now }
    ensures is { valued_at table.now result ≡ value_beside_places (type_at table.now row) constant }
    ensures within { room_of result ≤ length table.now }
{
    match table.shape(row).of {
        CType::Array(..) => Value::Array(row),
        _ => value_in_row(table, row, constant),
    }
}

/// The value of a place of a row's type, that is so much of a constant. So it is of what a function gives, and of a parameter.
pub fn value_in_row(table: &Table, row: u32, constant: Constant) -> Value
    requires { row < length table.now }
    ensures is { valued_at table.now result ≡ value_in (type_at table.now row) constant }
    ensures within { room_of result ≤ length table.now }
{
    match table.shape(row).of {
        CType::Void => Value::Void,
        CType::Int(kind) => Value::Integer(Operand { kind, constant }),
        CType::Pointer(to) => Value::Pointer(to),
        CType::Array(of, _) => Value::Pointer(of),
        CType::Struct(node) => Value::Structure(node),
        CType::Function(_) => Value::Unknown,
        CType::Unknown => Value::Unknown,
    }
}

/// The fact of an expression that is no place, by its value. `null` is whether it is the constant 0 cast to `void *`.
pub fn fact_of(table: &mut Table, value: Value, null: bool) -> Result<Fact, AllocError>
    requires { room_of value ≤ length table.old }
    ensures within { IfOk result (λ f. f.row < length table.new) }
    ensures is { IfOk result (λ f. seen_at table.new f ≡ seen_of (valued_at table.old value) null) }
    ensures grows { OnOk result (Grows table.old table.new) }
{
    let constant = constant_of(table, value);
    let row = row_of(table, value)?;
    Ok(Fact {
        row,
        lvalue: false,
        register: false,
        constant,
        null,
    })
}

fn row_of(table: &mut Table, value: Value) -> Result<u32, AllocError>
    requires { room_of value ≤ length table.old }
    ensures made { IfOk result (λ r. IsRow table.new r (type_of_value (valued_at table.old value))) }
    ensures grows { OnOk result (Grows table.old table.new) }
{
    match value {
        Value::Array(row) => Ok(row),
        Value::Integer(operand) => table.add(Shape::plain(CType::Int(operand.kind))),
        Value::Pointer(to) => table.add(Shape::plain(CType::Pointer(to))),
        Value::Structure(node) => table.add(Shape::plain(CType::Struct(node))),
        Value::Void => table.add(Shape::plain(CType::Void)),
        Value::Unknown => table.add(Shape::plain(CType::Unknown)),
    }
}

fn constant_of(table: &Table, value: Value) -> Constant
    ensures { result ≡ constant_of_value (valued_at table.now value) }
{
    match value {
        Value::Integer(operand) => operand.constant,
        _ => Constant::NotConstant,
    }
}
