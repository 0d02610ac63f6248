//! A run of a task: the file is read and ruled on, the test is asked, the copy is saved, and what a reduction comes to is
//! saved, for any passes, law and question. A run has parts that stand alone (`open`, `begin`, `conclude`), so that other
//! reductions than that of `cr_reduce` can stand between them; its promises are lemmas about one task, whatever is claimed
//! of its reduction. Stands on `cr_reduce`, `cr_log` and `cr_outside`.
#![tactic(auto)]

mod asking;
mod beginning;
mod finish;
mod messages;
mod names;
mod opening;
mod run_task;
mod saving;
pub mod status;
mod task;

pub use asking::{Asked, Asking, Unbound};
pub use beginning::begin;
pub use finish::conclude;
pub use messages::{Refusal, put, refuse};
pub use names::beside;
pub use opening::{MOST_READ, open, ruled};
pub use run_task::run_lawful;
pub use task::Task;
