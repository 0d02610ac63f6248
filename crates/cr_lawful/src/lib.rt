//! The law of the reduction: which files are programs of the subset.
//!
//! A file is lawful where its tokens are those of a unit, each name of the unit is declared once in its scope and known where it is used,
//! the unit breaks no constraint, and its run within the limits ends, without undefined behaviour and within the profile. `CLaw` rules on a
//! file, with the one reason against it: its tokens' first fault, then the parser's first refusal, then the first fault of its names, then
//! the first constraint that it breaks, then the case at which its run ends. It stands on the lexer, the parsers, the names, the whole
//! check and the run of a typed unit, and on `cr_cursor` for the trait.
//!
//! `ruled_by` rules on a file for any law of runs, a `RunLaw`, of which `CLaw` is one. `end_of` says how the run of a file ends; `LastRun` is
//! where the law leaves that of the last lawful file.
#![tactic(auto)]

mod ends;
mod last_run;
mod law;
mod laws;
mod program;
mod reasons;
mod ruled;
mod units;

pub use ends::{Ended, a_file_has_one_end, end_of};
pub use last_run::{LastRun, leave_run};
pub use law::CLaw;
pub use laws::{a_file_has_one_reason, lawful_files_have_no_reason};
pub use reasons::run_ruling;
pub use ruled::{RunLaw, ruled_by, ruled_by_tokens};
