//! The types of functions in a unit that breaks no constraint: of their declarations, of their parameters, and of a library's functions that are called (C11 6.7.6.3).
//!
//! A module for each law. The program calls no function of this crate.
#![tactic(auto)]

pub mod callees;
pub mod functions;
pub mod parameters;
