// What each pass and level was accepted for.
ghost use Rattle.std.specs.Prelude.{◌≡◌, ◌+◌, ◌^◌, ◌<◌, ℕ, IfOk, IsTrue, length};
ghost use Rattle.cr_reduce.specs.declared.end.Accepted.{Accepted};
ghost use Rattle.cr_report.specs.Summed.{AreColumns, IsSummed, removed_in, rows_in, turns_in};

use cr_cursor::PASSES;
use cr_reduce::Accepted;
use std::alloc::{AllocError, Global};

/// What a pass was accepted for at a level.
#[derive(Clone, Copy, Debug, PartialEq, Eq)]
pub struct Cell {
    pub accepted: u64,
    /// The turns up to these variants, each counted from what was accepted before it.
    pub turns: u64,
    /// What they took off the size.
    pub removed: u64,
}

/// What a pass and level has that nothing was accepted for.
pub const EMPTY: Cell = Cell {
    accepted: 0,
    turns: 0,
    removed: 0,
};

/// A pass has a cell for each level that a log can name.
pub const LEVELS: usize = 256;

/// The cells of all passes and levels, and the size and the turn of the last row.
#[derive(Debug, Drop)]
pub struct Columns {
    pub cells: Vec<Cell>,
    pub size: u64,
    pub turn: u64,
}

/// Why rows have no columns.
#[derive(Clone, Copy, Debug, PartialEq, Eq)]
pub enum RowFault {
    NoMemory,
    /// The row behind so many is larger or earlier than what stands before it, or of no pass.
    Behind(usize),
}

/// The place of the cell of a pass and a level.
pub fn place_of(pass: u8, level: u8) -> usize {
    usize::from(pass) * LEVELS + usize::from(level)
}

/// The columns of these rows, where the size was `begun` before them.
pub fn columns_of(alloc: Global, begun: u64, accepted: &[Accepted]) -> Result<Columns, RowFault>
    ensures { IfOk result (AreColumns begun accepted.now) }
{
    let Ok(mut cells) = no_cells(alloc) else {
        return Err(RowFault::NoMemory);
    };
    let mut size = begun;
    let mut turn = 0;
    for (index, one) in accepted.iter().enumerate() {
        if !add(&mut cells, size, turn, one) {
            return Err(RowFault::Behind(index));
        }
        size = one.size;
        turn = one.turn;
    }
    Ok(Columns { cells, size, turn })
}

fn no_cells(alloc: Global) -> Result<Vec<Cell>, AllocError>
    ensures { IfOk result (λ cells. IsSummed cells.items 0 0 0 0) }
{
    vec![in alloc; EMPTY; usize::from(PASSES) * LEVELS]
}

// Adds a row to its cell, where it is neither larger nor earlier than what stands before it.
fn add(cells: &mut Vec<Cell>, size: u64, turn: u64, one: &Accepted) -> bool
    requires rows { rows_in cells.old.items < 2 ^ 63 }
    requires turns { turns_in cells.old.items ≡ turn }
    requires removed { removed_in cells.old.items + size < 2 ^ 64 }
    ensures { IsTrue result → (rows begun : ℕ) → IsSummed cells.old.items rows turn begun size → IsSummed cells.new.items (rows + 1) one.now.turn begun one.now.size }
{
    let Some(turns) = one.turn.checked_sub(turn) else {
        return false;
    };
    let Some(removed) = size.checked_sub(one.size) else {
        return false;
    };
    let at = place_of(one.at.pass, one.at.level);
    if at >= cells.len() {
        return false;
    }
    let cell = cells[at];
    cells[at] = Cell {
        accepted: cell.accepted + 1,
        turns: cell.turns + turns,
        removed: cell.removed + removed,
    };
    true
}
