//! What always holds of logs: the clause of a function that does nothing.
ghost use Rattle.std.specs.Prelude.{None};
ghost use Rattle.cr_replay.specs.Chains.{chain_of};
ghost use Rattle.cr_replay.specs.Laws.{FailsOnce, LeadsOrFails};

use cr_cursor::{Law, Passes};

/// A log leads to a result, or fails at one first line, and never both.
pub fn a_log_leads_or_fails<P: Passes, L: Law>(passes: &P, law: &L)
    ensures apart { LeadsOrFails (chain_of P.Passes passes.now L.Law law.now None) }
    ensures one_line { FailsOnce (chain_of P.Passes passes.now L.Law law.now None) }
{}
