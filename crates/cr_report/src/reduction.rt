// What is known of a reduction, by its log or its journal.
ghost use Rattle.std.specs.Prelude.{IfOk};
ghost use Rattle.cr_report.specs.Summed.{IsWhole};

use crate::cells::{Cell, Columns, RowFault, columns_of};
use crate::fault::ReportFault;
use crate::journal::{Kept, read_kept};
use cr_log::{Log, LogFault, read_log};
use cr_reduce::Accepted;
use std::alloc::Global;

/// How many bytes a log has at most.
const MOST: usize = 1_073_741_824;

/// A reduction.
#[derive(Debug, Drop)]
pub struct Reduction {
    /// The size at first, where it is known.
    pub first: Option<u64>,
    /// That size; where it isn't known, the first that is.
    pub begun: u64,
    pub accepted: Vec<Accepted>,
    /// What each pass and level was accepted for: 256 levels of a pass, and then the next pass.
    pub cells: Vec<Cell>,
    /// The size and the turns at the end, or so far.
    pub size: u64,
    pub turns: u64,
    /// How many of the turns came behind the last accepted variant.
    pub vain: u64,
    /// Why it ended, where it has: 0 at a fixed point, 1 at the limit, 2 at a fault of the test.
    pub why: Option<u8>,
}

/// Reads a log. Beside it stands what is known of the size at first; where it can't be that of this log, it counts as unknown.
pub fn read_reduction(
    alloc: Global,
    text: &[u8],
    first: Option<u64>,
) -> Result<Reduction, ReportFault>
    ensures { IfOk result IsWhole }
{
    if text.len() > MOST {
        return Err(ReportFault::TooLong);
    }
    match read_log(alloc, text) {
        Ok(log) => match ended(alloc, log, first) {
            Ok(reduction) => Ok(reduction),
            Err(RowFault::NoMemory) => Err(ReportFault::NoMemory),
            Err(RowFault::Behind(rows)) => Err(ReportFault::LineBehind(number_behind(rows))),
        },
        Err(LogFault::NoMemory) => Err(ReportFault::NoMemory),
        Err(LogFault::Line(number)) => Err(ReportFault::Line(u64::from(number))),
    }
}

/// Reads what a journal has so far.
pub fn read_journal(alloc: Global, bytes: &[u8]) -> Result<Reduction, ReportFault>
    ensures { IfOk result IsWhole }
{
    match read_kept(alloc, bytes) {
        Ok(kept) => match so_far(alloc, kept) {
            Ok(reduction) => Ok(reduction),
            Err(RowFault::NoMemory) => Err(ReportFault::NoMemory),
            Err(RowFault::Behind(rows)) => Err(ReportFault::RecordBehind(number_behind(rows))),
        },
        Err(fault) => Err(fault),
    }
}

// The number of what stands behind so many rows: lines begin with 1, and the first record is the header.
fn number_behind(rows: usize) -> u64 {
    (rows as u64).saturating_add(1)
}

fn ended(alloc: Global, log: Log, first: Option<u64>) -> Result<Reduction, RowFault>
    ensures { IfOk result IsWhole }
{
    let (first, begun) = first_of(first, log.accepted.as_slice(), log.size);
    let columns = columns_of(alloc, begun, log.accepted.as_slice())?;
    let Some(vain) = log.turns.checked_sub(columns.turn) else {
        return Err(RowFault::Behind(log.accepted.len()));
    };
    if columns.size != log.size {
        return Err(RowFault::Behind(log.accepted.len()));
    }
    Ok(Reduction {
        first,
        begun,
        accepted: log.accepted,
        cells: columns.cells,
        size: log.size,
        turns: log.turns,
        vain,
        why: Some(log.why),
    })
}

fn so_far(alloc: Global, kept: Kept) -> Result<Reduction, RowFault>
    ensures { IfOk result IsWhole }
{
    let Columns { cells, size, turn } = columns_of(alloc, kept.first, kept.accepted.as_slice())?;
    Ok(Reduction {
        first: Some(kept.first),
        begun: kept.first,
        accepted: kept.accepted,
        cells,
        size,
        turns: turn,
        vain: 0,
        why: None,
    })
}

// The size at first, where it is known and can be that of these rows, and the first size that is known.
fn first_of(first: Option<u64>, accepted: &[Accepted], size: u64) -> (Option<u64>, u64) {
    let Some(one) = accepted.first() else {
        return (Some(size), size);
    };
    match first {
        Some(first) if first >= one.size => (Some(first), first),
        _ => (None, one.size),
    }
}
