//! Constants have values within the ranges of their kinds, and initialisers of static duration are made of constants and of addresses (C11 6.4.4, 6.6).
//!
//! A module for each law. The program calls no function of this crate.
#![tactic(auto)]

pub mod anchored;
pub mod ranges;
pub mod spelled;
