//! A machine with an explicit stack that runs a program of the meaning in slices. A node that waits for a part's answer is a frame
//! of two numbers, and no stack of the operating system is used for the depth of a program. Before the first step and after each
//! 4,096 steps the machine asks a `Stop` whether to give up. It is generic over `Nodes`, which does the work of single nodes:
//! whatever these are, it answers exactly what the meaning says, or that it was stopped, or want of memory. It stands on the meaning.
#![tactic(auto)]

pub mod laws;
mod machine;
mod nodes;

pub use machine::{Outcome, STEPS_OF_A_SLICE, run_nodes};
pub use nodes::{Fresh, Halted, Nodes, Way};
