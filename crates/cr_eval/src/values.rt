#![tactic(auto, using(crate::proofs::Answering::answers, crate::proofs::Answering::then_answers, crate::proofs::Answering::ends_answer, crate::proofs::Answering::written))]

ghost use Rattle.std.specs.Prelude.{◌≡◌, Ok, IfOk, [], ◌∷◌};
ghost use Rattle.cr_ints.specs.IntKind.{IsInteger};
ghost use Rattle.cr_memory.specs.Memory.{has_ended};
ghost use Rattle.cr_meaning.specs.Values.{truth, is_null, if_lives, asked, converted};
ghost use Rattle.cr_meaning.specs.Work.{is_nothing, integer, cast, taken, taken_scalar};
ghost use Rattle.cr_eval.specs.Answers.{Answers};

use crate::integers::is_integer;
use cr_ints::{IntKind, convert};
use cr_meaning::{Form, Value};
use cr_memory::{Cell, ENDED, Pointer, Store, Trap, UNSET};
use cr_rows::Row;
use std::alloc::Global;

/// U15: the value of a call that gives none is used (C11 6.9.1p12).
pub const UNUSED_VALUE: u8 = 15;

/// 1 or 0, as an `int`.
#[inline(always)]
pub(crate) fn truth(b: bool) -> Value
    ensures { result ≡ truth b }
{
    Value::Number(IntKind::Int, i128::from(b))
}

/// Whether there is no value.
pub fn is_nothing(value: &Value) -> bool
    ensures { result ≡ is_nothing value.now }
{
    match value {
        Value::Nothing => true,
        _ => false,
    }
}

fn is_null(at: Pointer) -> bool
    ensures { result ≡ is_null at }
{
    match at {
        Pointer::Null => true,
        Pointer::At { .. } => false,
    }
}

/// Whether the lifetime of the object that a pointer points to, or just past, has ended.
#[inline]
pub(crate) fn has_ended(store: &Store, at: Pointer) -> bool
    ensures { result ≡ has_ended store.now at }
{
    match at {
        Pointer::Null => false,
        Pointer::At { object, .. } => !store.is_live(object),
    }
}

/// A pointer that is an operand: U10.
#[inline]
pub(crate) fn if_lives(store: &Store, at: Pointer) -> Result<Pointer, Trap>
    ensures { result ≡ if_lives store.now at (Ok at) }
{
    if has_ended(store, at) {
        Err(Trap::Undefined(ENDED))
    } else {
        Ok(at)
    }
}

/// Whether a scalar compares unequal to 0, as an operation (6.5.13p3, 6.8.4.1p2): U15, U10.
#[inline]
pub fn asked(store: &Store, value: &Value) -> Result<bool, Trap>
    ensures { result ≡ asked store.now value.now }
{
    match value {
        Value::Number(_, number) => Ok(*number != 0),
        Value::Pointer(at) => {
            if has_ended(store, *at) {
                Err(Trap::Undefined(ENDED))
            } else {
                Ok(!is_null(*at))
            }
        }
        Value::Nothing => Err(Trap::Undefined(UNUSED_VALUE)),
        Value::Place(_) | Value::Cells(_) => Err(Trap::NoMemory),
    }
}

/// The number that an integer operand is: U15.
#[inline]
pub fn integer(value: &Value) -> Result<i128, Trap>
    ensures value { Answers (integer value.now) result }
    ensures range { IfOk result IsInteger }
{
    match value {
        Value::Number(_, number) => {
            if is_integer(*number) {
                Ok(*number)
            } else {
                Err(Trap::NoMemory)
            }
        }
        Value::Nothing => Err(Trap::Undefined(UNUSED_VALUE)),
        Value::Pointer(_) | Value::Place(_) | Value::Cells(_) => Err(Trap::NoMemory),
    }
}

pub(crate) fn copied_cells(alloc: Global, cells: &[Cell]) -> Result<Row<Cell>, Trap>
    ensures { Answers (Ok cells.now) result }
{
    let mut copy = Vec::new(alloc);
    match copy.extend_from_slice(cells) {
        Ok(()) => Ok(Row::from_vec(copy)),
        Err(_) => Err(Trap::NoMemory),
    }
}

/// The value again. Only a structure takes memory.
pub(crate) fn copied(alloc: Global, value: &Value) -> Result<Value, Trap>
    ensures { Answers (Ok value.now) result }
{
    match value {
        Value::Nothing => Ok(Value::Nothing),
        Value::Number(kind, number) => Ok(Value::Number(*kind, *number)),
        Value::Pointer(at) => Ok(Value::Pointer(*at)),
        Value::Place(at) => Ok(Value::Place(*at)),
        Value::Cells(cells) => Ok(Value::Cells(copied_cells(alloc, cells.as_slice())?)),
    }
}

// ---- conversions (6.3.1.2, 6.3.1.3, 6.3.2.3)

#[inline]
fn to_number(store: &Store, kind: IntKind, value: &Value) -> Result<Value, Trap>
    ensures { Answers (converted store.now (Form.Number kind) value.now) result }
{
    match value {
        Value::Number(_, number) => {
            if is_integer(*number) {
                Ok(Value::Number(kind, convert(*number, kind)))
            } else {
                Err(Trap::NoMemory)
            }
        }
        Value::Pointer(at) => {
            if has_ended(store, *at) {
                Err(Trap::Undefined(ENDED))
            } else {
                Ok(Value::Number(kind, i128::from(!is_null(*at))))
            }
        }
        Value::Nothing => Err(Trap::Undefined(UNUSED_VALUE)),
        Value::Place(_) | Value::Cells(_) => Err(Trap::NoMemory),
    }
}

fn to_pointer(store: &Store, to: u32, value: &Value) -> Result<Value, Trap>
    ensures { Answers (converted store.now (Form.Pointer to) value.now) result }
{
    match value {
        Value::Number(_, _) => Ok(Value::Pointer(Pointer::Null)),
        Value::Pointer(at) => Ok(Value::Pointer(*at)),
        Value::Nothing => Err(Trap::Undefined(UNUSED_VALUE)),
        Value::Place(_) | Value::Cells(_) => Err(Trap::NoMemory),
    }
}

fn to_cells(alloc: Global, store: &Store, row: u32, value: &Value) -> Result<Value, Trap>
    ensures { Answers (converted store.now (Form.Cells row) value.now) result }
{
    match value {
        Value::Cells(cells) => Ok(Value::Cells(copied_cells(alloc, cells.as_slice())?)),
        Value::Nothing => Err(Trap::Undefined(UNUSED_VALUE)),
        Value::Number(_, _) | Value::Pointer(_) | Value::Place(_) => Err(Trap::NoMemory),
    }
}

/// A value as one of another type, as if by assignment: U15, U10.
#[inline]
pub fn converted(alloc: Global, store: &Store, form: Form, value: &Value) -> Result<Value, Trap>
    ensures { Answers (converted store.now form value.now) result }
{
    match form {
        Form::Void => copied(alloc, value),
        Form::Number(kind) => to_number(store, kind, value),
        Form::Pointer(to) => to_pointer(store, to, value),
        Form::Cells(row) => to_cells(alloc, store, row, value),
    }
}

/// A cast (6.5.4p5): U15, U10.
pub(crate) fn cast(alloc: Global, store: &Store, form: Form, value: &Value) -> Result<Value, Trap>
    ensures { Answers (cast store.now form value.now) result }
{
    match form {
        Form::Void => Ok(Value::Nothing),
        _ => match value {
            Value::Pointer(at) => {
                if_lives(store, *at)?;
                converted(alloc, store, form, value)
            }
            _ => converted(alloc, store, form, value),
        },
    }
}

// ---- a member of a structure that is no lvalue (6.5.2.3p3)

fn taken_scalar(store: &Store, form: Form, cell: Cell) -> Result<Value, Trap>
    ensures { Answers (taken_scalar store.now form (cell ∷ [])) result }
{
    match (form, cell) {
        (Form::Number(kind), Cell::Number(number)) => Ok(Value::Number(kind, number)),
        (Form::Pointer(_), Cell::Pointer(at)) => Ok(Value::Pointer(if_lives(store, at)?)),
        (_, Cell::Unset) => Err(Trap::Undefined(UNSET)),
        _ => Err(Trap::NoMemory),
    }
}

/// Some cells as a value of a type, as if they were loaded: U10, U11.
pub(crate) fn taken(alloc: Global, store: &Store, form: Form, cells: &[Cell]) -> Result<Value, Trap>
    ensures { Answers (taken store.now form cells.now) result }
{
    match form {
        Form::Cells(_) => Ok(Value::Cells(copied_cells(alloc, cells)?)),
        _ => match cells {
            [cell] => taken_scalar(store, form, *cell),
            _ => Err(Trap::NoMemory),
        },
    }
}
