//! The law of programs whose run reaches a statement with a given label and evaluates its own expression whole.
//!
//! A lawful run protects what it runs, and of other code nothing is known: so a fault of a compiler that is seen without running anything may
//! end in a sham, where an operand that isn't evaluated is undefined. `ReachedLaw` asks all that `CLaw` or `OrderLaw` asks, and that in the
//! file's run a statement with the label is reached and each operand of its own expression evaluated. Where that alone fails, it rules N9,
//! on the line of the first such label. It runs a file once, as those laws do, and leaves in the same places what it read and how the run
//! ended. It stands on `ruled_by` of `cr_lawful`, which rules for any law of runs, and on the watches of `cr_exec` and `cr_order_watch`.
#![tactic(auto)]

mod labels;
mod law;
mod laws;
mod outcome;
mod running;
mod watch;
mod whole;

pub use law::ReachedLaw;
pub use laws::{
    reached_files_are_lawful, reached_files_have_no_reason, reached_files_have_one_reason,
};
pub use outcome::outcome_reached;
