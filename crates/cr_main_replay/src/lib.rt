//! A log is checked without the test: the copy of the file, the log and the file are read, the law rules on the copy, and
//! one line says whether the log leads from the copy to the file, or which of its lines is the first that fails. For any
//! passes and any law; `replay_programs` has those of programs, which share what was read of the last file. Nothing is written, and no judge is
//! asked. Stands on `cr_main_task`, `cr_replay`, `cr_log`, `cr_lawful` and `pass_list`.
#![tactic(auto)]

mod answer;
mod laws;
mod lines;
mod programs;
mod reading;
mod replay;

pub use laws::a_log_that_leads_to_the_file_is_taken;
pub use programs::replay_programs;
pub use replay::{Replay, run_replay};
