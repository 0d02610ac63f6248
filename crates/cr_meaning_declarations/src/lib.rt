//! The declarations of a file's unit: which node declares a name, where it is seen, what lasts, and what shares an entity (C11 6.2, 6.7).
//!
//! A module for each law. The program calls no function of this crate.
#![tactic(auto)]

pub mod declared;
pub mod lasting;
pub mod linked;
pub mod names;
pub mod sight;
pub mod units;
