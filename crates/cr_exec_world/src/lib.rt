//! The world of a run (C11 6.2.4): its memory, what it has printed, the steps that are left, how many calls run, and which object
//! each name has. It promises that to reach a node, to open a block, to close one and to set an object's cells is what the meaning
//! says, or its first case. It stands on the own work of expressions, the memory and the meaning.
#![tactic(auto)]

mod cells;
mod names;
mod objects;
mod steps;
mod world;

pub use cells::{blank, clear, write};
pub use names::{Binding, Names};
pub use objects::{close, deeper, enter, enter_each, mark, open, shape_for, spelled_for};
pub use steps::{NO_STEP, reach, step};
pub use world::World;
