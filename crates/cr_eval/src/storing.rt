#![tactic(auto, using(crate::proofs::Answering::answers, crate::proofs::Answering::then_answers, crate::proofs::Answering::ends_answer, crate::proofs::Answering::written))]

ghost use Rattle.std.specs.Prelude.{◌≡◌, length, IsTrue, false, if◌then◌else◌};
ghost use Rattle.cr_memory.specs.Memory.{AllHold};
ghost use Rattle.cr_memory.specs.Access.{save_of, put_of};
ghost use Rattle.cr_meaning.specs.Values.{cells_in, strays};
ghost use Rattle.cr_meaning.specs.Work.{loaded, stored, assigned, updated};
ghost use Rattle.cr_eval.specs.Answers.{Answers, meant, leaving};
ghost use Rattle.cr_eval.specs.Table.{program_of};

use crate::did::{Deeds, Did};
use crate::operators::changed;
use crate::places::{cell_at, load, value_in};
use crate::pointers::strays;
use crate::table::Table;
use crate::values::converted;
use cr_meaning::{Change, Form, Value};
use cr_memory::{Cell, OTHER_TYPE, Pointer, Scalar, Store, Trap};
use std::alloc::Global;

/// How many cells a type has.
#[inline]
fn cells_in(table: &Table, form: Form) -> usize
    ensures { result ≡ cells_in (program_of table.now) form }
{
    match form {
        Form::Void => 0,
        Form::Number(_) | Form::Pointer(_) => 1,
        Form::Cells(row) => table.cells_of(row),
    }
}

/// Stores a scalar: U9, U10, U13, U14, N5.
#[inline]
fn save(store: &mut Store, at: Pointer, kind: Scalar, value: Cell) -> Result<(), Trap>
    ensures { Answers (save_of store.old at kind value) (leaving store.new result) }
{
    if store.is_pointer(at) && store.holds(kind, value) {
        store.save(at, kind, value)
    } else {
        Err(Trap::NoMemory)
    }
}

/// Whether cells of the kinds may hold the values.
fn all_hold(store: &Store, kinds: &[Scalar], values: &[Cell]) -> bool
    ensures { IsTrue result → AllHold store.now kinds.now values.now }
{
    let (mut kinds_left, mut values_left) = (kinds, values);
    loop {
        let [kind, more @ ..] = kinds_left else {
            return values_left.is_empty();
        };
        let [value, others @ ..] = values_left else {
            return false;
        };
        if !store.holds(*kind, *value) {
            return false;
        }
        kinds_left = more;
        values_left = others;
    }
}

/// Stores a structure: U9, U10, U13, U14, N5.
fn put(store: &mut Store, at: Pointer, kinds: &[Scalar], values: &[Cell]) -> Result<(), Trap>
    requires { strays (length kinds.now) at ≡ false }
    ensures { Answers (put_of store.old at kinds.now values.now) (leaving store.new result) }
{
    if store.is_pointer(at) && all_hold(store, kinds, values) {
        store.put(at, kinds, values)
    } else {
        Err(Trap::NoMemory)
    }
}

/// Stores a value of a scalar type at a place.
#[inline]
fn stored_scalar(
    table: &Table,
    store: &mut Store,
    form: Form,
    at: Pointer,
    value: &Value,
) -> Result<(), Trap>
    ensures { Answers (stored (program_of table.now) store.old form at value.now) (leaving store.new result) }
{
    match (form, value) {
        (Form::Number(kind), Value::Number(_, number)) => save(
            store,
            at,
            Scalar::Int(kind),
            Cell::Number(*number),
        ),
        (Form::Pointer(to), Value::Pointer(pointer)) => save(
            store,
            at,
            Scalar::Pointer(to),
            Cell::Pointer(*pointer),
        ),
        _ => Err(Trap::NoMemory),
    }
}

/// Stores a value of a type at a place.
#[inline]
fn stored(
    table: &Table,
    store: &mut Store,
    form: Form,
    at: Pointer,
    value: &Value,
) -> Result<(), Trap>
    requires { strays (cells_in (program_of table.now) form) at ≡ false }
    ensures { Answers (stored (program_of table.now) store.old form at value.now) (leaving store.new result) }
{
    match (form, value) {
        (Form::Cells(row), Value::Cells(cells)) => match table.kinds_of(row) {
            Some(kinds) => put(store, at, kinds, cells.as_slice()),
            None => Err(Trap::NoMemory),
        },
        _ => stored_scalar(table, store, form, at, value),
    }
}

/// `=` (C11 6.5.16.1p2): N5, U15, U10, and the cases of the write.
pub(crate) fn assigned(
    alloc: Global,
    table: &Table,
    store: &mut Store,
    form: Form,
    left: &Value,
    right: &Value,
) -> Result<Did, Trap>
    ensures { Answers (assigned (program_of table.now) store.old form left.now right.now) (meant store.new result) }
{
    let Value::Place(at) = left else {
        return Err(Trap::NoMemory);
    };
    let cells = cells_in(table, form);
    if strays(cells, *at) {
        return Err(Trap::Left(OTHER_TYPE));
    }
    let Ok(count) = u32::try_from(cells) else {
        return Err(Trap::NoMemory);
    };
    let value = converted(alloc, store, form, right)?;
    stored(table, store, form, *at, &value)?;
    let (object, first) = cell_at(*at);
    Ok(Did {
        value,
        deeds: Deeds::Write {
            object,
            first,
            count,
        },
    })
}

/// The value of a scalar object of a type.
#[inline]
fn loaded(store: &Store, form: Form, at: Pointer) -> Result<Value, Trap>
    ensures { Answers (loaded store.now form at) result }
{
    match form {
        Form::Number(kind) => Ok(value_in(Scalar::Int(kind), load(store, at, Scalar::Int(kind))?)),
        Form::Pointer(to) => Ok(value_in(
            Scalar::Pointer(to),
            load(store, at, Scalar::Pointer(to))?,
        )),
        Form::Void | Form::Cells(_) => Err(Trap::NoMemory),
    }
}

fn one_of(first: bool, old: Value, new: Value) -> Value
    ensures { result ≡ (if first then old else new) }
{
    if first { old } else { new }
}

/// A compound assignment, `++` or `--` (6.5.16.2p3, 6.5.3.1p2, 6.5.2.4p2): the value is read, changed, converted and stored.
pub(crate) fn updated(
    alloc: Global,
    table: &Table,
    store: &mut Store,
    change: Change,
    form: Form,
    volatile: bool,
    post: bool,
    left: &Value,
    right: &Value,
) -> Result<Did, Trap>
    ensures { Answers (updated (program_of table.now) store.old change form volatile post left.now right.now) (meant store.new result) }
{
    let Value::Place(at) = left else {
        return Err(Trap::NoMemory);
    };
    if strays(1, *at) {
        return Err(Trap::Left(OTHER_TYPE));
    }
    let old = loaded(store, form, *at)?;
    let changed = changed(store, change, &old, right)?;
    let new = converted(alloc, store, form, &changed)?;
    stored_scalar(table, store, form, *at, &new)?;
    let (object, cell) = cell_at(*at);
    Ok(Did {
        value: one_of(post, old, new),
        deeds: Deeds::Update {
            object,
            cell,
            volatile,
        },
    })
}
