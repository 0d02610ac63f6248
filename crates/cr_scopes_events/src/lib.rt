//! The events of a unit as far as names go, in the order of its text: scopes open and close, names are declared and used.
//!
//! A walk over a unit comes to its nodes one by one, parts between their neighbours. `events` is the list of what it comes to:
//! blocks and lists of parameters begin and end, an identifier enters its scope behind its declarator, a tag at its own token,
//! an enumerator behind its definition (C11 6.2.1p7), and identifiers are used. What a node does is its script, one equation a
//! kind in `specs/Scripts.antt`; kinds that say nothing of names go through their parts in order. Labels and uses of members
//! bring no events. It promises that list, and stands on the tree and the tokens.
#![tactic(auto)]

mod declarator;
mod event;
mod laws;
mod naming;
mod script;
mod steps;
mod walk;

pub use declarator::{Declarator, Derivation, declared_by};
pub use event::{Event, Role};
pub use laws::nodes_are_ruled;
pub use steps::first_at;
pub use walk::events;
