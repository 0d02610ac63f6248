// Initialisers (C11 6.7.9).
ghost use Rattle.std.specs.Prelude.{◌≡◌, ℕ, Ok, ◌∷◌, [], IfOk, IfSome};
ghost use Rattle.cr_memory.specs.Memory.{live_object};
ghost use Rattle.cr_memory.specs.Access.{object_at, some_object};
ghost use Rattle.cr_meaning.specs.Values.{kinds_in, cells_of_value};
ghost use Rattle.cr_meaning.specs.Work.{is_nothing};
ghost use Rattle.cr_meaning.specs.Nodes.{element_of, elements_of, initial, set_parts, unused_in, with_parts, zeroed};
ghost use Rattle.cr_eval.specs.Answers.{Answers, leaving};
ghost use Rattle.cr_eval.specs.Table.{program_of};
ghost use Rattle.cr_exec_slices.specs.Shown.{Worked};
ghost use Rattle.cr_exec_world.specs.Worlds.{world_of};
ghost use Rattle.cr_exec_statements.specs.Kept.{value_in, values_in};
ghost use Rattle.cr_exec_statements.specs.Sets.{GivesParts, IsCharAt, parts_set, set_by};

use crate::kept::halted;
use cr_eval::{Table, UNUSED_VALUE, converted, integer, is_nothing, load};
use cr_exec_slices::Halted;
use cr_exec_turns::Held;
use cr_exec_world::{World, blank, shape_for, write};
use cr_ints::convert;
use cr_meaning::{Form, Line, Value};
use cr_memory::{Cell, Element, Pointer, Scalar, Store, Trap};
use cr_rows::Row;
use std::alloc::Global;

// ---- what an initialiser gives its part

/// The cell of an object with this number, if it has one.
fn char_at(store: &Store, object: u32, place: u32) -> Result<Option<Cell>, Trap>
    ensures { IfOk result (IsCharAt (some_object (live_object store.now object)).cells place) }
{
    let Some(kind) = store.kind_of(object, place) else {
        return Ok(None);
    };
    let Some(high) = place.checked_add(1) else {
        return Err(Trap::NoMemory);
    };
    let at = Pointer::At {
        object,
        cell: place,
        low: place,
        high,
        element: Element { cells: 1, of: 0 },
    };
    match load(store, at, kind) {
        Ok(cell) => Ok(Some(cell)),
        Err(_) => Err(Trap::NoMemory),
    }
}

/// A cell of a string literal as the element of this kind that it initialises.
fn element(kind: Scalar, cell: Cell) -> Result<Cell, Trap>
    ensures { Answers (Ok (element_of kind cell)) result }
{
    match (kind, cell) {
        (Scalar::Int(kind), Cell::Number(value)) => match integer(&Value::Number(kind, value)) {
            Ok(value) => Ok(Cell::Number(convert(value, kind))),
            Err(_) => Err(Trap::NoMemory),
        },
        _ => Ok(cell),
    }
}

/// An object's cells as elements of these kinds, as far as there is room, one by one.
#[tactic(auto, using(crate::proofs::Elements::one_more, crate::proofs::Elements::none_left))]
fn elements_each(
    alloc: Global,
    store: &Store,
    object: u32,
    kinds: &[Scalar],
) -> Result<Row<Cell>, Trap>
    ensures { Answers (Ok (elements_of kinds.now (some_object (live_object store.now object)).cells)) result }
{
    let mut cells = Vec::new(alloc);
    let mut kinds_left = kinds;
    while let [kind, more @ ..] = kinds_left {
        let Ok(place) = u32::try_from(cells.len()) else {
            return Err(Trap::NoMemory);
        };
        let Ok(found) = char_at(store, object, place) else {
            return Err(Trap::NoMemory);
        };
        let Some(cell) = found else {
            return Ok(Row::from_vec(cells));
        };
        let Ok(new) = element(*kind, cell) else {
            return Err(Trap::NoMemory);
        };
        let Ok(()) = cells.push(new) else {
            return Err(Trap::NoMemory);
        };
        kinds_left = more;
    }
    Ok(Row::from_vec(cells))
}

/// The same of cells that stand one behind another.
fn elements_of_run(alloc: Global, run: &[Cell], kinds: &[Scalar]) -> Result<Row<Cell>, Trap>
    ensures { Answers (Ok (elements_of kinds.now run.now)) result }
{
    let mut cells = Vec::new(alloc);
    let (mut kinds_left, mut left) = (kinds, run);
    while let [kind, more @ ..] = kinds_left {
        let [cell, others @ ..] = left else {
            return Ok(Row::from_vec(cells));
        };
        let Ok(new) = element(*kind, *cell) else {
            return Err(Trap::NoMemory);
        };
        let Ok(()) = cells.push(new) else {
            return Err(Trap::NoMemory);
        };
        kinds_left = more;
        left = others;
    }
    Ok(Row::from_vec(cells))
}

/// An object's cells as elements of these kinds, as far as there is room. They mostly stand one behind another.
fn elements(alloc: Global, store: &Store, object: u32, kinds: &[Scalar]) -> Result<Row<Cell>, Trap>
    ensures { Answers (Ok (elements_of kinds.now (some_object (live_object store.now object)).cells)) result }
{
    match store.run_of(object) {
        Some(run) => elements_of_run(alloc, run, kinds),
        None => elements_each(alloc, store, object, kinds),
    }
}

/// A string literal's chars as the elements of an array of this type, as far as there is room (6.7.9p14).
fn literal(
    alloc: Global,
    table: &Table,
    store: &Store,
    form: Form,
    at: Pointer,
) -> Result<Row<Cell>, Trap>
    ensures { Answers (Ok (elements_of (kinds_in (program_of table.now) form) (object_at store.now at).cells)) result }
{
    let Pointer::At { object, .. } = at else {
        return Err(Trap::NoMemory);
    };
    match form {
        Form::Void => Ok(Row::new(alloc)),
        Form::Number(kind) => elements(alloc, store, object, &[Scalar::Int(kind)]),
        Form::Pointer(to) => elements(alloc, store, object, &[Scalar::Pointer(to)]),
        Form::Cells(row) => match table.spelled_kinds(alloc, row) {
            Ok(kinds) => elements(alloc, store, object, &kinds),
            Err(_) => Err(Trap::NoMemory),
        },
    }
}

fn one_cell(alloc: Global, cell: Cell) -> Result<Row<Cell>, Trap>
    ensures { Answers (Ok (cell ∷ [])) result }
{
    let mut cells = Vec::new(alloc);
    match cells.push(cell) {
        Ok(()) => Ok(Row::from_vec(cells)),
        Err(_) => Err(Trap::NoMemory),
    }
}

fn cells_of(alloc: Global, value: Value) -> Result<Row<Cell>, Trap>
    ensures { Answers (Ok (cells_of_value value)) result }
{
    match value {
        Value::Number(_, number) => one_cell(alloc, Cell::Number(number)),
        Value::Pointer(at) => one_cell(alloc, Cell::Pointer(at)),
        Value::Cells(cells) => Ok(cells),
        Value::Nothing | Value::Place(_) => Ok(Row::new(alloc)),
    }
}

/// The converted value, as if by assignment (6.7.9p11, p13), or a string literal's chars: U15, U10.
fn initial(
    alloc: Global,
    table: &Table,
    store: &Store,
    line: Line,
    value: &Value,
) -> Result<Row<Cell>, Trap>
    ensures { Answers (initial (program_of table.now) store.now line value.now) result }
{
    match value {
        Value::Place(at) => literal(alloc, table, store, line.form, *at),
        _ => match converted(alloc, store, line.form, value) {
            Ok(value) => cells_of(alloc, value),
            Err(trap) => Err(trap),
        },
    }
}

fn initial_of(
    alloc: Global,
    table: &Table,
    store: &Store,
    line: Line,
    answer: &Held,
) -> Result<Row<Cell>, Trap>
    ensures { Answers (initial (program_of table.now) store.now line (value_in answer.now)) result }
{
    match answer {
        Held::Part(part) => initial(alloc, table, store, line, &part.value),
        _ => initial(alloc, table, store, line, &Value::Nothing),
    }
}

// ---- all initialisers of an object

/// Whether an answer has no value.
fn lacks_value(answer: &Held) -> bool
    ensures { result ≡ is_nothing (value_in answer.now) }
{
    match answer {
        Held::Part(part) => is_nothing(&part.value),
        _ => true,
    }
}

/// What uses the first initialiser without a value.
fn unused_in(lines: &[Line], done: &[Held]) -> Option<u32>
    ensures { result ≡ unused_in lines.now (values_in done.now) }
{
    let (mut lines_left, mut done_left) = (lines, done);
    loop {
        let [line, more @ ..] = lines_left else {
            return None;
        };
        let [answer, others @ ..] = done_left else {
            return None;
        };
        if lacks_value(answer) {
            return Some(line.user);
        }
        lines_left = more;
        done_left = others;
    }
}

/// The parts that are set, each by its first cell. A case is at what uses the initialiser: U15, U10.
fn parts_of(
    alloc: Global,
    table: &Table,
    store: &Store,
    lines: &[Line],
    done: &[Held],
) -> Result<Vec<(u32, Row<Cell>)>, Halted>
    ensures { GivesParts (set_parts (program_of table.now) store.now lines.now (values_in done.now)) result }
{
    let mut sets = Vec::new(alloc);
    let (mut lines_left, mut done_left) = (lines, done);
    loop {
        let [line, more @ ..] = lines_left else {
            return Ok(sets);
        };
        let [answer, others @ ..] = done_left else {
            return Ok(sets);
        };
        match initial_of(alloc, table, store, *line, answer) {
            Ok(cells) => {
                let Ok(()) = sets.push((line.cell, cells)) else {
                    return Err(Halted::NoMemory);
                };
            }
            Err(trap) => return Err(halted(trap, line.user)),
        }
        lines_left = more;
        done_left = others;
    }
}

/// Sets one part after another.
fn write_parts(store: &mut Store, object: u32, sets: &[(u32, Row<Cell>)]) -> Result<(), Trap>
    ensures { Answers (Ok (with_parts store.old object sets.now)) (leaving store.new result) }
{
    let mut rest = sets;
    while let [set, more @ ..] = rest {
        match write(store, object, set.0, set.1.as_slice()) {
            Ok(()) => rest = more,
            Err(_) => return Err(Trap::NoMemory),
        }
    }
    Ok(())
}

/// What has no initialiser becomes zero or null with the others (6.7.9p19, p21).
fn fill(
    alloc: Global,
    table: &Table,
    store: &mut Store,
    declared: u32,
    object: u32,
    sets: &[(u32, Row<Cell>)],
) -> Result<(), Trap>
    ensures { Answers (Ok (with_parts (zeroed (program_of table.now) store.old object declared) object sets.now)) (leaving store.new result) }
{
    let Some(shape) = shape_for(table, declared) else {
        return Err(Trap::NoMemory);
    };
    match blank(alloc, shape, store, object) {
        Ok(()) => write_parts(store, object, sets),
        Err(_) => Err(Trap::NoMemory),
    }
}

// ---- a scalar's one initialiser, for which no list is made

/// The one cell of a scalar.
#[inline]
fn scalar_of(value: &Value) -> Option<Cell>
    ensures { IfSome result (λ cell. cells_of_value value.now ≡ cell ∷ []) }
{
    match value {
        Value::Number(_, number) => Some(Cell::Number(*number)),
        Value::Pointer(at) => Some(Cell::Pointer(*at)),
        _ => None,
    }
}

/// What an initialiser gives a scalar, if it does.
#[inline]
fn scalar_initial(
    alloc: Global,
    table: &Table,
    store: &Store,
    line: Line,
    value: &Value,
) -> Option<Cell>
    ensures { IfSome result (λ cell. initial (program_of table.now) store.now line value.now ≡ Ok (cell ∷ [])) }
{
    match value {
        Value::Number(_, _) | Value::Pointer(_) => {
            match converted(alloc, store, line.form, value) {
                Ok(new) => scalar_of(&new),
                Err(_) => None,
            }
        }
        _ => None,
    }
}

/// The only part that is set, where it is a scalar.
fn lone_part(
    alloc: Global,
    table: &Table,
    store: &Store,
    lines: &[Line],
    done: &[Held],
) -> Option<(u32, Cell)>
    ensures { IfSome result (λ set. set_parts (program_of table.now) store.now lines.now (values_in done.now) ≡ Ok ((set.0, set.1 ∷ []) ∷ [])) }
{
    let ([line], [Held::Part(part)]) = (lines, done) else {
        return None;
    };
    match scalar_initial(alloc, table, store, *line, &part.value) {
        Some(cell) => Some((line.cell, cell)),
        None => None,
    }
}

fn fill_one(
    alloc: Global,
    table: &Table,
    store: &mut Store,
    declared: u32,
    object: u32,
    set: (u32, Cell),
) -> Result<(), Trap>
    ensures { Answers (Ok (with_parts (zeroed (program_of table.now) store.old object declared) object ((set.0, set.1 ∷ []) ∷ []))) (leaving store.new result) }
{
    let Some(shape) = shape_for(table, declared) else {
        return Err(Trap::NoMemory);
    };
    match blank(alloc, shape, store, object) {
        Ok(()) => write(store, object, set.0, &[set.1]),
        Err(_) => Err(Trap::NoMemory),
    }
}

// ---- the declarator

/// All parts that are set, and the rest zero or null.
fn set_all(
    alloc: Global,
    table: &Table,
    world: &mut World,
    declared: u32,
    object: u32,
    lines: &[Line],
    done: &[Held],
) -> Result<(), Halted>
    ensures work { Worked (parts_set (program_of table.now) declared object lines.now (values_in done.now) (world_of world.old)) result (world_of world.new) }
    ensures steps { world.new.steps ≡ world.old.steps }
{
    let filled = match lone_part(alloc, table, &world.store, lines, done) {
        Some(set) => fill_one(alloc, table, &mut world.store, declared, object, set),
        None => {
            let sets = parts_of(alloc, table, &world.store, lines, done)?;
            fill(alloc, table, &mut world.store, declared, object, &sets)
        }
    };
    match filled {
        Ok(()) => Ok(()),
        Err(_) => Err(Halted::NoMemory),
    }
}

/// A declarator with initialisers sets its object once all of them are evaluated: U15 of any of them, then U10.
pub(crate) fn initialise(
    alloc: Global,
    table: &Table,
    world: &mut World,
    declared: u32,
    lines: &[Line],
    done: &[Held],
) -> Result<(), Halted>
    ensures work { (node : ℕ) → Worked (set_by (program_of table.now) node declared lines.now (values_in done.now) (world_of world.old)) result (world_of world.new) }
    ensures steps { world.new.steps ≡ world.old.steps }
{
    let Some(object) = world.names.find(declared) else {
        return Err(Halted::NoMemory);
    };
    match unused_in(lines, done) {
        Some(user) => Err(Halted::Undefined(UNUSED_VALUE, user)),
        None => set_all(alloc, table, world, declared, object, lines, done),
    }
}
