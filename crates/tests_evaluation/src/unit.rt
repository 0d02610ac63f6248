// The hand-made unit.
use crate::rows::rows;
use cr_eval::Table;
use cr_exec_world::{Names, World, close, enter, mark, spelled_for};
use cr_ints::IntKind;
use cr_meaning::{Limits, Value};
use cr_memory::{Cell, Element, Guard, Pointer, Scalar, Store};
use cr_rows::Row;
use cr_sequence::Times;
use std::alloc::{AllocError, Global};

// Its objects by the node that declares each, which is the number of its line: its name, its cells and what they hold. `i` is an int,
// `k` a constant one, `l` a long, `c` a char, `s` a char of a string literal, `*` a pointer to int; `?` is unset, `n` the null pointer,
// `e` a pointer to an object whose lifetime has ended. So `t` and `u` are structures of an int `m` and a pointer `p`, and of `y` the
// int `m` is constant.
const OBJECTS: &str = "
i i 1
z i 0
x i ?
v i 1
w l 1
c c 127
k k 1
p * n
q * e
b ii 0 0
a iiiiii 0 0 0 0 0 0
t i* ? e
u i* 3 n
y ki 1 2
d ssss 97 98 99 0
";

/// The number of the object whose lifetime has ended.
pub(crate) const ENDED: u32 = 0;

/// A table and a world with all objects of the unit. The operations are those that a test puts in.
#[derive(Drop)]
pub(crate) struct Unit {
    pub(crate) table: Table,
    pub(crate) world: World,
}

/// The node that declares the object of this name.
pub(crate) fn node_of(name: u8) -> Option<u32> {
    let mut node: u32 = 0;
    for row in rows(OBJECTS) {
        if row.as_bytes().first() == Some(&name) {
            return Some(node);
        }
        node = node.checked_add(1)?;
    }
    None
}

/// The first cell of an object of one cell.
pub(crate) fn single(object: u32) -> Pointer {
    Pointer::At {
        object,
        cell: 0,
        low: 0,
        high: 1,
        element: Element { cells: 1, of: 0 },
    }
}

fn number(word: &str) -> Value {
    if let Some(digits) = word.strip_suffix("u") {
        return Value::Number(IntKind::UInt, digits.parse::<i128>().unwrap_or(0));
    }
    if let Some(digits) = word.strip_suffix("l") {
        return Value::Number(IntKind::Long, digits.parse::<i128>().unwrap_or(0));
    }
    Value::Number(IntKind::Int, word.parse::<i128>().unwrap_or(0))
}

/// A value: `n` is the null pointer, `e` a pointer to an object whose lifetime has ended, `*` one to an int, `g` none; a number has type
/// int, or with `u` or `l` behind it unsigned int or long.
pub(crate) fn value_of(word: &str) -> Value {
    match word {
        "n" => Value::Pointer(Pointer::Null),
        "e" => Value::Pointer(single(ENDED)),
        "*" => Value::Pointer(single(1)),
        "g" => Value::Nothing,
        _ => number(word),
    }
}

fn own(letter: u8) -> (Scalar, Guard) {
    match letter {
        b'k' => (Scalar::Int(IntKind::Int), Guard::Constant),
        b'l' => (Scalar::Int(IntKind::Long), Guard::Free),
        b'c' => (Scalar::Int(IntKind::Char), Guard::Free),
        b's' => (Scalar::Int(IntKind::Char), Guard::Literal),
        b'*' => (Scalar::Pointer(0), Guard::Free),
        _ => (Scalar::Int(IntKind::Int), Guard::Free),
    }
}

fn shape(alloc: Global, letters: &str) -> Result<Vec<(Scalar, Guard)>, AllocError> {
    let mut shape = Vec::new(alloc);
    for letter in letters.as_bytes() {
        shape.push(own(*letter))?;
    }
    Ok(shape)
}

fn cell(word: &str) -> Cell {
    match word {
        "?" => Cell::Unset,
        "n" => Cell::Pointer(Pointer::Null),
        "e" => Cell::Pointer(single(ENDED)),
        _ => Cell::Number(word.parse::<i128>().unwrap_or(0)),
    }
}

fn push_shape(alloc: Global, table: &mut Table, row: &str) -> Result<(), AllocError> {
    let letters = row.split_whitespace().nth(1).unwrap_or("");
    table.shapes.push(Times::new(shape(alloc, letters)?, 1)?)
}

// The rows of the table of types: the structure of `t` and `u`.
fn push_kinds(alloc: Global, table: &mut Table) -> Result<(), AllocError> {
    let mut kinds = Vec::new(alloc);
    kinds.push(Scalar::Int(IntKind::Int))?;
    kinds.push(Scalar::Pointer(0))?;
    table.kinds.push(Times::new(kinds, 1)?)
}

fn fill_table(alloc: Global, table: &mut Table) -> Result<(), AllocError> {
    for row in rows(OBJECTS) {
        push_shape(alloc, table, row)?;
    }
    push_kinds(alloc, table)
}

// A table without operations. 8 bytes may be printed.
fn make_table(alloc: Global) -> Result<Table, AllocError> {
    let mut table = Table {
        ops: Row::new(alloc),
        shapes: Row::new(alloc),
        literals: Row::new(alloc),
        kinds: Row::new(alloc),
        limits: Limits {
            steps: 100,
            depth: 1,
            cells: 100,
            output: 8,
        },
    };
    fill_table(alloc, &mut table)?;
    Ok(table)
}

fn enter_ended(world: &mut World) -> Result<(), AllocError> {
    mark(world).map_err(|_| AllocError)?;
    enter(world, 0, &[own(b'i')], &[Cell::Unset]).map_err(|_| AllocError)?;
    close(world).map_err(|_| AllocError)
}

fn cells_of(alloc: Global, row: &str) -> Result<Vec<Cell>, AllocError> {
    let mut cells = Vec::new(alloc);
    for word in row.split_whitespace().skip(2) {
        cells.push(cell(word))?;
    }
    Ok(cells)
}

fn enter_row(
    alloc: Global,
    table: &Table,
    world: &mut World,
    node: u32,
    row: &str,
) -> Result<(), AllocError> {
    let cells = cells_of(alloc, row)?;
    let Some(shape) = spelled_for(table, node) else {
        return Err(AllocError);
    };
    enter(world, node, shape, &cells).map_err(|_| AllocError)
}

fn make_world(alloc: Global) -> Result<World, AllocError> {
    let names = Names::new(alloc, 20).map_err(|_| AllocError)?;
    Ok(World {
        store: Store::new(alloc, 100),
        output: Vec::new(alloc),
        steps: 100,
        depth: 1,
        names,
    })
}

fn fill_world(alloc: Global, table: &Table, world: &mut World) -> Result<(), AllocError> {
    enter_ended(world)?;
    let mut node: u32 = 0;
    for row in rows(OBJECTS) {
        enter_row(alloc, table, world, node, row)?;
        node = node.saturating_add(1);
    }
    Ok(())
}

fn empty_unit(alloc: Global) -> Result<Unit, AllocError> {
    let world = make_world(alloc)?;
    let table = make_table(alloc)?;
    Ok(Unit { table, world })
}

/// The unit.
pub(crate) fn make_unit(alloc: Global) -> Result<Unit, AllocError> {
    let mut unit = empty_unit(alloc)?;
    fill_world(alloc, &unit.table, &mut unit.world)?;
    Ok(unit)
}
