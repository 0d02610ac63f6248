//! What each name of a file's unit finds by the numbers of nodes: a declaration before it, of its kind, and of an object that the program has (C11 6.2.1p7, 6.9p3).
//!
//! A module for each law. The program calls no function of this crate.
#![tactic(auto)]

pub mod constant;
pub mod told;
pub mod trees;
pub mod typedefs;
