//! Whether the order of a program's operands is fixed in its run (C11 6.5p3): a watch sees where nodes begin and end, keeps for each node
//! that is open what its operands read and wrote, and finds the node whose operands see one another first. `run_judged` runs a program
//! so, and `run_judged_beside` while another watch sees the run too. It stands on the interpreter, and on the definition of what it finds.
#![tactic(auto)]

mod beside;
mod cells;
mod judged;
mod kinds;
mod levels;
mod lists;
mod opened;
mod watch;

pub use judged::{run_judged, run_judged_beside};
