//! The operations of a typed unit are well typed, kind by kind, in one table of sorts: so a run comes to a status or to a numbered case (C11 6.5, 6.8).
//!
//! A module for each law. The program calls no function of this crate.
#![tactic(auto)]

pub mod calls;
pub mod expressions;
pub mod judged;
pub mod sorts;
pub mod statements;
pub mod typed;
pub mod whole;
