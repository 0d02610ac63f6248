//! What is known of a unit's nodes before any of them is judged: what stands above and before each, what each has from above, which
//! declaration each name has, which ones stand before a name that is declared, and the tag of each specifier.
//!
//! The constraints of C are rules of a node by the nodes before it. These columns are what they read of the tree and of its names beside
//! that. Each is its definition, and all are made once for a unit; a law says that a unit has one of each. It stands on the bindings of
//! names and the places of nodes.
#![tactic(auto)]

mod bound;
mod laws;
mod links;
mod previous;
mod raised;
mod surroundings;
mod tagged;

pub use laws::one_surroundings;
pub use surroundings::Surroundings;
