//! A run of a task whose reduction is kept in a journal beside the file, and a run that goes on with one. `run_journal` begins a
//! journal where there is none, once the copy of the file is saved, and adds each acceptance to it before it goes on; `run_resume`
//! goes on behind the acceptances of a journal, from the copy, after a stop at any moment; where no journal stands it does what
//! `run_journal` does. For any passes, law and question, on files and a disk that have one story. Stands on `cr_journal`, which has
//! the reduction that is kept, on `cr_journal_stops`, which says what stops leave, and on `cr_main_task`, which has the parts of a
//! run.
#![tactic(auto)]

mod further;
mod header;
mod journal;
mod kept;
pub mod laws;
mod lines;
mod reduction;
mod started;

pub use header::{Marks, passes_mark};
pub use kept::{run_journal, run_resume};
