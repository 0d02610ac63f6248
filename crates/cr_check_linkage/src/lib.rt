//! What the declarations of one linked name have to agree in (C11 6.2.2, 6.2.7, 6.7p4, 6.7.6.3p15, 6.9).
//!
//! A declaration is judged by one declaration before it, the last one of the same name, whatever its scope: there stands what all so
//! far did, and their composite type. So each declaration is compared once, however many a name has. Which declarations are before it,
//! and what the nodes before have, is handed in. Each call answers exactly its rule; the only error is want of memory. It stands on the
//! rules of declarations and the types.
#![tactic(auto)]

mod declaring;
mod faults;
mod joining;
mod links;
mod name_type;
mod uses;

pub use declaring::linked;
pub use faults::linkage_break;
pub use joining::TypeRows;
pub use links::Links;
pub use name_type::NameRows;
pub use uses::{composite, seen};
