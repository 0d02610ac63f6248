//! Which names are types: the scopes of a parser and those of the events of a unit tell the same of each typedef name (C11 6.2.1, 6.7.8).
//!
//! A module for each law. The program calls no function of this crate.
#![tactic(auto)]

pub mod effects;
pub mod parsed;
pub mod tellings;
pub mod typedefs;
