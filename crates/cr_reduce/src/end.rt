// How a reduction is bounded, and what comes of it.
use cr_cursor::Cursor;

/// One accepted variant.
#[derive(Clone, Copy, Debug, PartialEq, Eq)]
pub struct Accepted {
    /// Where it stood among the variants of the file before it.
    pub at: Cursor,
    /// The size of the accepted file.
    pub size: u64,
    /// How many positions had been looked at with it.
    pub turn: u64,
}

/// Why a reduction ended.
#[derive(Clone, Copy, Debug, PartialEq, Eq)]
pub enum Why {
    /// One whole round accepted nothing.
    Fixed,
    /// The turns reached the limit.
    Limit,
    /// At this turn the judge of this worker answered that the test failed.
    Fault(u64, u32),
    NoMemory,
}

/// The file that a reduction ended with, what it accepted, and how many positions it looked at.
#[derive(Debug, Drop)]
pub struct End {
    pub file: Vec<u8>,
    pub accepted: Vec<Accepted>,
    pub turns: u64,
    pub why: Why,
}

/// Where a reduction stands that has accepted rows before: it goes on behind the last of them.
#[derive(Debug, Drop)]
pub struct Kept {
    /// The file that was accepted last, or without rows the first one.
    pub file: Vec<u8>,
    /// The last row's cursor; without rows the first cursor.
    pub at: Cursor,
    pub accepted: Vec<Accepted>,
    /// The last row's turn; without rows 0.
    pub turns: u64,
}

/// How a reduction is run. Workers and window don't change its outcome.
#[derive(Clone, Copy, Debug, PartialEq, Eq)]
pub struct Plan {
    pub workers: u32,
    /// How many positions are tried at once, at most.
    pub window: u32,
    /// The most turns.
    pub limit: Option<u64>,
}
