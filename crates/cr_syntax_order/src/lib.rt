//! The order in which the nodes of a tree are listed.
//!
//! A tree doesn't fix the numbers of its nodes. Where each node stands behind those below it, and the nodes of a row one behind the other
//! with nothing between, it does: then a tree has one list of nodes (`one_listing`). It stands on `cr_syntax`.
#![tactic(auto)]

mod laws;

pub use laws::one_listing;
