//! Each declared type of a unit that breaks no constraint is known, found where it is named, and no larger than it may be (C11 6.2.5, 6.7.2).
//!
//! A module for each law. The program calls no function of this crate.
#![tactic(auto)]

pub mod fitting;
pub mod found;
pub mod known;
