//! The run of a file's typed unit comes to a status, or to a numbered case: what the grammar and the check give of its tree is no premise.
//!
//! Which nodes a run may reach is worked out of the tree (`is_reached`). Nothing is premised of the file.
//! The program calls no function of this crate.
#![tactic(auto)]

pub mod called;
pub mod identifiers;
pub mod laws;
