// Rows, followed from the file that the reduction began with.
ghost use Rattle.std.specs.Prelude.{◌≡◌, ◌⊎◌, [], Err, IfErr, IfOk, List, MatchOption, ℕ, Some};
ghost use Rattle.cr_cursor.specs.TokenLaw.{IsTokenized};
ghost use Rattle.cr_journal.specs.Replay.{IsReplayed, kept_behind, last_cursor};
ghost use Rattle.cr_replay.specs.Chains.{BreaksAt, Follows, chain_of};

use cr_cursor::{Cursor, Law, Passes};
use cr_journal_rows::JournalFault;
use cr_reduce::{Accepted, Kept};
use cr_replay::{Followed, follow};
use std::alloc::Global;

/// Where a reduction without rows stands: before the first variant.
const FIRST: Cursor = Cursor {
    pass: 0,
    level: 0,
    index: 0,
};

/// Follows the rows of a journal from the file that the reduction began with, and answers where it stands behind them, or
/// `Differs` with the first row, from 1, that doesn't follow: its cursor has no variant, the variant isn't smaller and lawful or
/// hasn't the row's size, or its turn isn't above the turn before or is above `limit`.
pub fn replay<P: Passes, L: Law>(
    alloc: Global,
    passes: &P,
    law: &L,
    file: Vec<u8>,
    rows: Vec<Accepted>,
    limit: u64,
) -> Result<Kept, JournalFault>
    requires tokenizes { IsTokenized file.items }
    ensures replayed { IfOk result (IsReplayed (chain_of P.Passes passes.now L.Law law.now (Some limit)) file.items rows.items) }
    ensures differs { (i : ℕ) → result ≡ Err (JournalFault.Differs i)
        → BreaksAt (chain_of P.Passes passes.now L.Law law.now (Some limit)) file.items 0 rows.items i }

    // Without want of memory rows that follow are taken, and all others refused, at the first that doesn't.
    ensures every_replay { (last : List ℕ) (turns : ℕ) → Follows (chain_of P.Passes passes.now L.Law law.now (Some limit)) file.items 0 rows.items last turns
        → IfErr result (λ fault. fault ≡ JournalFault.NoMemory) }
    ensures every_difference { (i : ℕ) → BreaksAt (chain_of P.Passes passes.now L.Law law.now (Some limit)) file.items 0 rows.items i
        → (result ≡ Err (JournalFault.Differs i)) ⊎ (result ≡ Err JournalFault.NoMemory) }
    ensures never_disk { result ≡ Err JournalFault.Disk → ⊥ }
    ensures never_bad { (i : ℕ) → result ≡ Err (JournalFault.Bad i) → ⊥ }
{
    match follow(alloc, passes, law, file, &rows, Some(limit)) {
        Followed::To(last, turns) => Ok(kept_at(last, rows, turns)),
        Followed::Breaks(number) => Err(JournalFault::Differs(number)),
        Followed::NoMemory => Err(JournalFault::NoMemory),
    }
}

fn kept_at(file: Vec<u8>, accepted: Vec<Accepted>, turns: u64) -> Kept
    ensures { result ≡ kept_behind file accepted turns }
{
    Kept {
        file,
        at: last_cursor(&accepted),
        accepted,
        turns,
    }
}

// The last row's cursor, or without rows the first.
fn last_cursor(rows: &[Accepted]) -> Cursor
    ensures { result ≡ last_cursor rows.now }
{
    match last_of(rows) {
        Some(row) => row.at,
        None => FIRST,
    }
}

fn last_of(rows: &[Accepted]) -> Option<Accepted>
    ensures { MatchOption result (rows.now ≡ []) (λ row. row.at ≡ last_cursor rows.now) }
{
    rows.last().copied()
}
