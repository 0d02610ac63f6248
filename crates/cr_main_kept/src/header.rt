// The header of a run's journal.
ghost use Rattle.std.specs.Prelude.{◌≡◌, ◌<◌, ◌≤◌, ◌^◌, Ok, true, false};
ghost use Rattle.cr_main_kept.specs.Header.{Fits, MarksFit, bit, header_of, limit_mark, passes_mark};
ghost use Rattle.cr_journal.specs.Laws.{most_turns};

use cr_journal_rows::Header;
use cr_outside::NoMemory;
use cr_pool::measure;
use std::alloc::Global;

/// What a journal's header has of the settings, beside the limit.
#[derive(Clone, Copy, Debug, PartialEq, Eq)]
pub struct Marks {
    /// The enabled passes: bit k for pass k, from the lowest.
    pub passes: u16,
    /// The most steps of a run.
    pub steps: u64,
}

/// The mark of no limit.
const UNLIMITED: u64 = u64::MAX;

/// The most turns of a row where there is no limit.
pub const MOST_TURNS: u64 = (1 << 63) - 1;

/// The mark of the enabled passes.
pub fn passes_mark(enabled: [bool; 12]) -> u16
    ensures { result ≡ passes_mark enabled }
{
    bit(enabled[0], 1)
        + bit(enabled[1], 2)
        + bit(enabled[2], 4)
        + bit(enabled[3], 8)
        + bit(enabled[4], 16)
        + bit(enabled[5], 32)
        + bit(enabled[6], 64)
        + bit(enabled[7], 128)
        + bit(enabled[8], 256)
        + bit(enabled[9], 512)
        + bit(enabled[10], 1024)
        + bit(enabled[11], 2048)
}

fn bit(is_enabled: bool, value: u16) -> u16
    ensures is { result ≡ bit is_enabled value }
    ensures most { result ≤ value }
{
    if is_enabled { value } else { 0 }
}

/// The header of a reduction of a file of this size.
pub fn header_of(marks: Marks, limit: Option<u64>, size: u64) -> Header
    ensures { result ≡ header_of marks limit size }
{
    Header {
        passes: marks.passes,
        steps: marks.steps,
        limit: limit_mark(limit),
        size,
    }
}

fn limit_mark(limit: Option<u64>) -> u64
    ensures is { result ≡ limit_mark limit }
    ensures below { limit_mark limit < 2 ^ 64 }
{
    match limit {
        Some(limit) => limit,
        None => UNLIMITED,
    }
}

/// The most turns of a row.
pub fn most_turns(limit: Option<u64>) -> u64
    ensures is { result ≡ most_turns limit }
    ensures below { most_turns limit < 2 ^ 64 }
{
    match limit {
        Some(limit) => limit,
        None => MOST_TURNS,
    }
}

/// Whether a header is that of these settings and of these bytes. Bytes that don't tokenise have no size, and fit any.
#[tactic(auto, using(crate::proofs::Headers::marks_fit))]
pub fn fits(
    alloc: Global,
    header: Header,
    marks: Marks,
    limit: Option<u64>,
    bytes: &[u8],
) -> Result<bool, NoMemory>
    ensures fits { result ≡ Ok true → Fits marks limit header bytes.now }
    ensures differs { result ≡ Ok false → Fits marks limit header bytes.now → ⊥ }
    ensures bounded { MarksFit marks limit }
{
    if !is_of(header, marks, limit) {
        return Ok(false);
    }
    match measure(alloc, bytes)? {
        Some(size) => Ok(size == header.size),
        None => Ok(true),
    }
}

// Whether a header is that of these settings, for a file of its own size.
fn is_of(header: Header, marks: Marks, limit: Option<u64>) -> bool
    ensures same { result ≡ true → header ≡ header_of marks limit header.size }
    ensures other { result ≡ false → header ≡ header_of marks limit header.size → ⊥ }
    ensures passes { marks.passes < 2 ^ 16 }
    ensures steps { marks.steps < 2 ^ 64 }
    ensures limit { limit_mark limit < 2 ^ 64 }
{
    let most = limit_mark(limit);
    header.passes == marks.passes && header.steps == marks.steps && header.limit == most
}
