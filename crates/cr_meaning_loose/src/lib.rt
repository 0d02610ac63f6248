//! The evaluation in a run whose operands see one another first (C11 6.5p3): where none does, the run has a fixed order. It is said of
//! what is seen of runs, and found by the marks of nodes that begin and end: what a forest reads and writes in all tells whether two
//! operands meet, one operand after another.
//!
//! It stands on runs in any order.
#![tactic(auto)]

pub mod laws;
