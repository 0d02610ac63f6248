#![tactic(auto, using(crate::proofs::Answering::answers, crate::proofs::Answering::then_answers, crate::proofs::Answering::ends_answer, crate::proofs::Answering::written))]

ghost use Rattle.std.specs.Prelude.{◌≡◌, Some, Ok, IfSome, false, length};
ghost use Rattle.cr_memory.specs.Memory.{Memory};
ghost use Rattle.cr_memory.specs.Access.{load_of, cells_of, number_of, cell_of};
ghost use Rattle.cr_meaning.specs.Values.{value_in, if_lives, misfits, strays};
ghost use Rattle.cr_meaning.specs.Work.{used, first_element, place_of, inner, inner_of, followed, member_of, deed_of, events_at};
ghost use Rattle.cr_eval.specs.Answers.{Answers, meant};
ghost use Rattle.cr_eval.specs.Deeds.{events_of};
ghost use Rattle.cr_eval.specs.Table.{program_of};

use crate::did::{Deeds, Did, plainly};
use crate::pointers::{misfits, reach, strays};
use crate::table::Table;
use crate::values::{UNUSED_VALUE, if_lives, taken};
use cr_meaning::{Access, Form, Value};
use cr_memory::{Cell, Element, OTHER_TYPE, Pointer, Scalar, Store, Trap};
use cr_rows::Row;
use std::alloc::Global;

/// The number of the object that a pointer points to, and of the cell; of null both are 0.
#[inline]
pub(crate) fn cell_at(at: Pointer) -> (u32, u32)
    ensures { result ≡ (number_of at, cell_of at) }
{
    match at {
        Pointer::Null => (0, 0),
        Pointer::At { object, cell, .. } => (object, cell),
    }
}

/// The read of one cell.
#[inline]
fn read_of(volatile: bool, at: Pointer) -> Deeds
    ensures { events_of result ≡ events_at (deed_of volatile) at 1 }
{
    let (object, cell) = cell_at(at);
    if volatile {
        Deeds::Touch { object, cell }
    } else {
        Deeds::Read {
            object,
            first: cell,
            count: 1,
        }
    }
}

// ---- places used as values (6.3.2.1p2, p3)

/// The value of a scalar object: U9, U10, U11, N5.
#[inline]
pub fn load(store: &Store, at: Pointer, kind: Scalar) -> Result<Cell, Trap>
    ensures { Answers (load_of store.now at kind) result }
{
    if store.is_pointer(at) {
        store.load(at, kind)
    } else {
        Err(Trap::NoMemory)
    }
}

/// What a cell of a kind holds, as a value.
#[inline]
pub(crate) fn value_in(kind: Scalar, cell: Cell) -> Value
    ensures { result ≡ value_in kind cell }
{
    match kind {
        Scalar::Int(kind) => match cell {
            Cell::Number(number) => Value::Number(kind, number),
            Cell::Pointer(at) => Value::Pointer(at),
            Cell::Unset => Value::Nothing,
        },
        Scalar::Pointer(_) => match cell {
            Cell::Pointer(at) => Value::Pointer(at),
            Cell::Number(_) | Cell::Unset => Value::Nothing,
        },
    }
}

fn used_scalar(
    table: &Table,
    store: &Store,
    kind: Scalar,
    volatile: bool,
    at: Pointer,
) -> Result<Did, Trap>
    ensures { Answers (used (program_of table.now) (Access.Scalar kind volatile) store.now at) (meant store.now result) }
{
    if strays(1, at) {
        return Err(Trap::Left(OTHER_TYPE));
    }
    let cell = load(store, at, kind)?;
    Ok(Did {
        value: value_in(kind, cell),
        deeds: read_of(volatile, at),
    })
}

/// The cells of a structure: U9, U10, N5.
fn cells(alloc: Global, store: &Store, at: Pointer, kinds: &[Scalar]) -> Result<Row<Cell>, Trap>
    requires { strays (length kinds.now) at ≡ false }
    ensures { Answers (cells_of store.now at kinds.now) result }
{
    if store.is_pointer(at) {
        Ok(Row::from_vec(store.cells(alloc, at, kinds)?))
    } else {
        Err(Trap::NoMemory)
    }
}

fn used_structure(
    alloc: Global,
    table: &Table,
    store: &Store,
    row: u32,
    at: Pointer,
) -> Result<Did, Trap>
    ensures { Answers (used (program_of table.now) (Access.Cells row) store.now at) (meant store.now result) }
{
    let Some(kinds) = table.kinds_of(row) else {
        return Err(Trap::NoMemory);
    };
    if strays(kinds.len(), at) {
        return Err(Trap::Left(OTHER_TYPE));
    }
    let Ok(count) = u32::try_from(kinds.len()) else {
        return Err(Trap::NoMemory);
    };
    let cells = cells(alloc, store, at, kinds)?;
    let (object, first) = cell_at(at);
    Ok(Did {
        value: Value::Cells(cells),
        deeds: Deeds::Read {
            object,
            first,
            count,
        },
    })
}

/// The array at a place as a pointer to its first element, or none where the number of the cell behind it is too large.
fn first_element(at: Pointer, element: Element) -> Option<Pointer>
    ensures { IfSome result (λ to. to ≡ first_element at element) }
{
    match at {
        Pointer::Null => Some(Pointer::Null),
        Pointer::At {
            object,
            cell,
            element: whole,
            ..
        } => {
            let high = cell.checked_add(whole.cells)?;
            Some(Pointer::At {
                object,
                cell,
                low: cell,
                high,
                element,
            })
        }
    }
}

fn used_array(
    table: &Table,
    store: &Store,
    element: Element,
    whole: u32,
    at: Pointer,
) -> Result<Did, Trap>
    ensures { Answers (used (program_of table.now) (Access.Array element whole) store.now at) (meant store.now result) }
{
    if whole != 0 && strays(whole as usize, at) {
        return Err(Trap::Left(OTHER_TYPE));
    }
    reach(store, at)?;
    match first_element(at, element) {
        Some(to) => Ok(plainly(Value::Pointer(to))),
        None => Err(Trap::NoMemory),
    }
}

/// A place, used as a node says.
#[inline]
pub(crate) fn used(
    alloc: Global,
    table: &Table,
    access: Access,
    store: &Store,
    at: Pointer,
) -> Result<Did, Trap>
    ensures { Answers (used (program_of table.now) access store.now at) (meant store.now result) }
{
    match access {
        Access::Unused => Ok(plainly(Value::Place(at))),
        Access::Scalar(kind, volatile) => used_scalar(table, store, kind, volatile, at),
        Access::Cells(row) => used_structure(alloc, table, store, row, at),
        Access::Array(element, whole) => used_array(table, store, element, whole, at),
    }
}

// ---- objects and members (6.5.1p2, p4, 6.5.2.3)

/// The place of a whole object, whose cells a table counts, and whose type a name tells.
pub(crate) fn whole_place(
    store: &Store,
    object: u32,
    cells: usize,
    of: u32,
) -> Result<Pointer, Trap>
    ensures { Answers (place_of store.now (Some object) of) result }
{
    let Ok(count) = u32::try_from(cells) else {
        return Err(Trap::NoMemory);
    };
    if count == 0
        || store.kind_of(object, count - 1).is_none()
        || store.kind_of(object, count).is_some()
    {
        return Err(Trap::NoMemory);
    }
    Ok(Pointer::At {
        object,
        cell: 0,
        low: 0,
        high: count,
        element: Element { cells: count, of },
    })
}

/// Some cells of the structure at a place, or none where their numbers are too large.
fn inner(at: Pointer, before: u32, member: Element) -> Option<Pointer>
    ensures { IfSome result (λ to. to ≡ inner before member at) }
{
    match at {
        Pointer::Null => Some(Pointer::Null),
        Pointer::At { object, cell, .. } => {
            let first = cell.checked_add(before)?;
            let high = first.checked_add(member.cells)?;
            Some(Pointer::At {
                object,
                cell: first,
                low: first,
                high,
                element: member,
            })
        }
    }
}

/// A member of the structure at a place: N5, U9, U10.
pub(crate) fn inner_of(
    store: &Store,
    whole: u32,
    before: u32,
    member: Element,
    at: Pointer,
) -> Result<Pointer, Trap>
    ensures { Answers (inner_of store.now whole before member at) result }
{
    if strays(whole as usize, at) {
        return Err(Trap::Left(OTHER_TYPE));
    }
    reach(store, at)?;
    match inner(at, before, member) {
        Some(to) => Ok(to),
        None => Err(Trap::NoMemory),
    }
}

/// What `->` designates: N5, U15, U9, U10.
pub(crate) fn pointed_member(
    store: &Store,
    whole: Element,
    before: u32,
    member: Element,
    value: &Value,
) -> Result<Pointer, Trap>
    ensures { Answers (followed whole value.now (inner_of store.now whole.cells before member)) result }
{
    match value {
        Value::Pointer(at) => {
            if misfits(whole, *at) {
                Err(Trap::Left(OTHER_TYPE))
            } else {
                inner_of(store, whole.cells, before, member, *at)
            }
        }
        Value::Nothing => Err(Trap::Undefined(UNUSED_VALUE)),
        Value::Number(_, _) | Value::Place(_) | Value::Cells(_) => Err(Trap::NoMemory),
    }
}

/// What `*` designates: N5, U15, U10.
pub(crate) fn dereferenced(store: &Store, own: Element, value: &Value) -> Result<Pointer, Trap>
    ensures { Answers (followed own value.now (λ at. if_lives store.now at (Ok at))) result }
{
    match value {
        Value::Pointer(at) => {
            if misfits(own, *at) {
                Err(Trap::Left(OTHER_TYPE))
            } else {
                if_lives(store, *at)
            }
        }
        Value::Nothing => Err(Trap::Undefined(UNUSED_VALUE)),
        Value::Number(_, _) | Value::Place(_) | Value::Cells(_) => Err(Trap::NoMemory),
    }
}
