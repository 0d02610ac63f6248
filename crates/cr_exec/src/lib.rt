//! The run of a program of the subset (C11 5.1.2, 6.5, 6.8) under the checker: `run` answers what the meaning says, the status with
//! the output and the steps, or the first case of undefined behaviour or of leaving the profile, with its node. It runs on an
//! explicit stack and asks a stop before the first step and after each 4,096 steps, so no stack of the operating system is used for
//! the program's depth, and a long run can be given up. It stands on the sliced machine, and on the work of expressions, calls and
//! statements.
#![tactic(auto)]

mod nodes;
mod program;
mod running;
mod watch;

pub use program::{run, run_seen};
pub use watch::Watch;
