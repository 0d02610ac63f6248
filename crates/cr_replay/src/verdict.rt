// A log, checked against a file and a result.
ghost use Rattle.std.specs.Prelude.{◌≡◌, ◌⊎◌, ◌<◌, ◌+◌, ◌^◌, ℕ, None, length};
ghost use Rattle.cr_cursor.specs.TokenLaw.{IsTokenized};
ghost use Rattle.cr_replay.specs.Chains.{chain_of};
ghost use Rattle.cr_replay.specs.Checks.{FailsAt, IsEnd, Leads, Says};

use crate::rows::{Followed, follow, has_size};
use cr_cursor::{Law, Passes};
use cr_log::Log;
use std::alloc::Global;

/// Whether a log leads from a file to a result.
#[derive(Clone, Copy, Debug, PartialEq, Eq)]
pub enum Verdict {
    Yes,
    /// This line, from 1, is the first that fails.
    Breaks(u32),
    NoMemory,
}

/// Checks a log: whether its lines lead from a file to the result. Where it answers Yes, the result was made of the file
/// by steps that are lawful and smaller, whoever wrote the log.
pub fn check<P: Passes, L: Law>(
    alloc: Global,
    passes: &P,
    law: &L,
    from: &[u8],
    log: &Log,
    wanted: &[u8],
) -> Verdict
    requires tokenizes { IsTokenized from.now }
    ensures leads { result ≡ Verdict.Yes → Leads (chain_of P.Passes passes.now L.Law law.now None) from.now log.now wanted.now }
    ensures breaks { (k : ℕ) → result ≡ Verdict.Breaks k → FailsAt (chain_of P.Passes passes.now L.Law law.now None) from.now log.now wanted.now k }

    // Without want of memory each log that leads to the result is taken, and every other is refused at its line.
    ensures every_lead { Leads (chain_of P.Passes passes.now L.Law law.now None) from.now log.now wanted.now → (result ≡ Verdict.Yes) ⊎ (result ≡ Verdict.NoMemory) }
    ensures every_break { (k : ℕ) → FailsAt (chain_of P.Passes passes.now L.Law law.now None) from.now log.now wanted.now k
        → (result ≡ Verdict.Breaks k) ⊎ (result ≡ Verdict.NoMemory) }
{
    verdict_of(alloc, passes, law, from, log, wanted)
}

// Follows the rows, and then looks at the last line.
fn verdict_of<P: Passes, L: Law>(
    alloc: Global,
    passes: &P,
    law: &L,
    from: &[u8],
    log: &Log,
    wanted: &[u8],
) -> Verdict
    requires tokenizes { IsTokenized from.now }
    ensures { Says (chain_of P.Passes passes.now L.Law law.now None) from.now log.now wanted.now result }
{
    let Ok(from) = from.to_vec(alloc) else {
        return Verdict::NoMemory;
    };
    match follow(alloc, passes, law, from, &log.accepted, None) {
        Followed::To(last, turns) => end_verdict(alloc, log, &last, turns, wanted),
        Followed::Breaks(number) => Verdict::Breaks(number),
        Followed::NoMemory => Verdict::NoMemory,
    }
}

// The last line, where the rows before it lead to this file with these turns.
fn end_verdict(alloc: Global, log: &Log, last: &Vec<u8>, turns: u64, wanted: &[u8]) -> Verdict
    requires few { length log.now.accepted.items < 2 ^ 31 }
    ensures yes { result ≡ Verdict.Yes → IsEnd log.now wanted.now last.now.items turns }
    ensures breaks { (k : ℕ) → result ≡ Verdict.Breaks k → (k ≡ length log.now.accepted.items + 1) × (IsEnd log.now wanted.now last.now.items turns → ⊥) }
{
    if turns > log.turns || last.as_slice() != wanted {
        return Verdict::Breaks(log.accepted.len() as u32 + 1);
    }
    match has_size(alloc, last, log.size) {
        Ok(true) => Verdict::Yes,
        Ok(false) => Verdict::Breaks(log.accepted.len() as u32 + 1),
        Err(_) => Verdict::NoMemory,
    }
}
