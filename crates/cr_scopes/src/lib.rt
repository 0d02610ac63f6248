//! The names of a unit: which token names what, and the first that names nothing or is declared twice (C11 6.2.1 to 6.2.3).
//!
//! `resolve` goes over the events of a unit once, with the scopes that are open, and answers the entities with their tokens, or
//! the fault at the least token; `resolve_whole` answers both, since the names before a fault have their entities too. What is in scope is said in `specs/Looking.antt` by looking back over the events before a
//! place, in `specs/Faults.antt` when a name is at fault, and in `specs/Resolved.antt` what the entities are. It stands on the
//! events, the tree and the tokens.
#![tactic(auto)]

mod entities;
mod fault;
mod names;
mod resolution;
mod rules;
mod scope;
mod spelled;
mod state;
mod table;
mod told;

pub use fault::NameFault;
pub use names::{Entity, Names};
pub use resolution::{Resolution, resolve, resolve_whole};
pub use rules::token_of;
pub use spelled::names_of;
