//! What always holds of replays: the clause of a function that does nothing.
ghost use Rattle.cr_main_replay.specs.Replay.{TakesEveryLead, replaying};

use crate::replay::Replay;
use cr_cursor::{Law, Passes};

/// A log that leads from the copy to the file is taken.
pub fn a_log_that_leads_to_the_file_is_taken<P: Passes, L: Law>(replay: &Replay<'_, P, L>)
    ensures { TakesEveryLead (replaying P.Passes L.Law replay.now) }
{}
