//! What a name sees where it is used: the declaration of its own spelling that stands before it, by scopes and by nodes (C11 6.2.1).
//!
//! A module for each law. The program calls no function of this crate.
#![tactic(auto)]

pub mod alone;
pub mod once;
pub mod parameters;
pub mod sight;
pub mod tagged;
pub mod told;
pub mod uses;
