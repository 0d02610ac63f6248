// Types of one table in another.
ghost use Rattle.std.specs.Prelude.{◌≡◌, ◌≤◌, ◌<◌, ℕ, List, suc, IfOk, OnOk, length};
ghost use Rattle.cr_check_types.specs.declared.shape.Shape as shape;
ghost use Rattle.cr_check_types.specs.Types.{Qualified, type_at, type_of, room_of, IsRow, Grows};
ghost use Rattle.cr_check_types.specs.Shared.{levels_of, IsWithAll};
ghost use Rattle.cr_typed_columns.specs.Levels.{above as type_above, wrapped, flat_type, IsStep, IsFlat};
ghost use Rattle.cr_typed_columns.specs.Rows.{AreKept};

use cr_check_types::{Shape, Table};
use cr_rows::entry_at;
use cr_scopes_bindings::set_link;
use cr_syntax::CType;
use std::alloc::{AllocError, Global};

/// A level of a type above another.
#[derive(Clone, Copy)]
pub(crate) enum Level {
    /// A pointer, and whether it is qualified `const` and `volatile`.
    Pointer(bool, bool),
    /// An array of so many.
    Array(u64),
}

/// What a type is made of.
#[derive(Clone, Copy)]
enum Step {
    /// A level above the type of a row.
    Above(Level, u32),
    /// A type with none below it.
    Flat(Shape),
}

/// The levels of a type, from the outermost inwards, and what stands below them.
#[derive(Drop)]
struct Levels {
    list: Vec<Level>,
    flat: Shape,
}

/// The row that a type has in one table, by a row of another. Of a row that isn't there it is that of no type. The error is want of memory.
pub(crate) fn copied(
    alloc: Global,
    table: &mut Table,
    from: &Table,
    row: u32,
) -> Result<u32, AllocError>
    ensures made { IfOk result (λ r. IsRow table.new r (type_at from.now row)) }
    ensures grows { OnOk result (Grows table.old table.new) }
    ensures levels { OnOk result (IsWithAll table.old (levels_of (type_at from.now row)) table.new) }
{
    let levels = levels_in(alloc, from, row)?;
    let flat = table.add(levels.flat)?;
    let made = raised(table, levels.list, flat)?;
    Ok(made)
}

/// The same, which keeps the row that each row of the other table has. A chain of types of which each is asked for costs a level each.
#[tactic(auto, using(crate::proofs::Kept::grows_none))]
pub(crate) fn copied_once(
    alloc: Global,
    table: &mut Table,
    from: &Table,
    known: &mut Vec<Option<u32>>,
    row: u32,
) -> Result<u32, AllocError>
    requires { AreKept from.now table.old known.old.items }
    ensures made { IfOk result (λ r. IsRow table.new r (type_at from.now row)) }
    ensures grows { OnOk result (Grows table.old table.new) }
    ensures levels { OnOk result (IsWithAll table.old (levels_of (type_at from.now row)) table.new) }
    ensures kept { OnOk result (AreKept from.now table.new known.new.items) }
{
    match entry_at(known, row as usize, None) {
        Some(made) => Ok(made),
        None => {
            let made = copied_on(alloc, table, from, known, row)?;
            set_link(known, row as usize, Some(made));
            Ok(made)
        }
    }
}

// The row of a type, which is one level above a row that is kept, or copied whole.
#[tactic(auto, using(crate::proofs::Kept::kept_levels))]
fn copied_on(
    alloc: Global,
    table: &mut Table,
    from: &Table,
    known: &[Option<u32>],
    row: u32,
) -> Result<u32, AllocError>
    requires { AreKept from.now table.old known.now }
    ensures made { IfOk result (λ r. IsRow table.new r (type_at from.now row)) }
    ensures grows { OnOk result (Grows table.old table.new) }
    ensures levels { OnOk result (IsWithAll table.old (levels_of (type_at from.now row)) table.new) }
{
    match step_of(shape_at(from, row)) {
        Step::Above(level, below) => match entry_at(known, below as usize, None) {
            Some(base) => raised_on(table, from, row, level, below, base),
            None => copied(alloc, table, from, row),
        },
        Step::Flat(_) => copied(alloc, table, from, row),
    }
}

// The row of a type that is a level above one that has a row.
fn raised_on(
    table: &mut Table,
    from: &Table,
    row: u32,
    level: Level,
    below: u32,
    base: u32,
) -> Result<u32, AllocError>
    requires base { IsRow table.old base (type_at from.now below) }
    requires levels { IsWithAll table.old (levels_of (type_at from.now below)) table.old }
    requires above { type_at from.now row ≡ type_above level (type_at from.now below) }
    ensures made { IfOk result (λ r. IsRow table.new r (type_at from.now row)) }
    ensures grows { OnOk result (Grows table.old table.new) }
    ensures levels { OnOk result (IsWithAll table.old (levels_of (type_at from.now row)) table.new) }
{
    let shape = shape_above(level, base);
    let raised = table.add(shape)?;
    Ok(raised)
}

/// The shape of a row; that of no type where there is no such row.
#[tactic(auto, using(cr_check_types::proofs::Tables::beyond))]
pub(crate) fn shape_at(table: &Table, row: u32) -> Shape
    ensures is { type_at table.now row ≡ type_of (type_at table.now) result }
    ensures below { room_of result ≤ row }
{
    if (row as usize) < table.len() {
        table.shape(row)
    } else {
        Shape::plain(CType::Unknown)
    }
}

fn step_of(shape: Shape) -> Step
    ensures { IsStep shape result }
{
    match shape.of {
        CType::Pointer(row) => Step::Above(Level::Pointer(shape.constant, shape.volatile), row),
        CType::Array(row, count) => Step::Above(Level::Array(count), row),
        CType::Void | CType::Int(_) => Step::Flat(shape),
        CType::Struct(_) | CType::Function(_) | CType::Unknown => Step::Flat(shape),
    }
}

fn levels_in(alloc: Global, from: &Table, row: u32) -> Result<Levels, AllocError>
    ensures flat { IfOk result (λ l. IsFlat l.flat) }
    ensures are { IfOk result (λ l. type_at from.now row ≡ wrapped l.list.items (flat_type l.flat)) }
{
    let mut list = Vec::new(alloc);
    let mut inner = row;
    loop {
        match step_of(shape_at(from, inner)) {
            Step::Above(level, row) => {
                list.push(level)?;
                inner = row;
            }
            Step::Flat(flat) => return Ok(Levels { list, flat }),
        }
    }
}

fn shape_above(level: Level, row: u32) -> Shape
    ensures is { (look : ℕ → Qualified) → type_of look result ≡ type_above level (look row) }
    ensures room { room_of result ≡ suc row }
{
    match level {
        Level::Pointer(constant, volatile) => Shape {
            of: CType::Pointer(row),
            constant,
            volatile,
        },
        Level::Array(count) => Shape::plain(CType::Array(row, count)),
    }
}

// The levels above the type of a row, the innermost first.
fn raised(table: &mut Table, list: Vec<Level>, row: u32) -> Result<u32, AllocError>
    requires { row < length table.old }
    ensures made { IfOk result (λ r. IsRow table.new r (wrapped list.items (type_at table.old row))) }
    ensures grows { OnOk result (Grows table.old table.new) }
    ensures levels { OnOk result ((start : List shape.Shape) → IsWithAll start (levels_of (type_at table.old row)) table.old → IsWithAll start (levels_of (wrapped list.items (type_at table.old row))) table.new) }
{
    let mut list = list;
    let mut made = row;
    while let Some(level) = list.pop() {
        made = table.add(shape_above(level, made))?;
    }
    Ok(made)
}
