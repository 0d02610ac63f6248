//! What declares one entity: declarations that share one, functions of one name, and what a name with linkage stands for (C11 6.2.2).
//!
//! A module for each law. The program calls no function of this crate.
#![tactic(auto)]

pub mod functions;
pub mod meant;
pub mod shared;
