//! What stands around a node of the tree: the node above it, and what it has from above, which is the definition, loop,
//! switch and block around it and what specifiers in it are for; and which marks of a list, as case constants and labels,
//! stood in it before. Each call answers exactly its definition, and its error is want of memory. It stands on the tree.
#![tactic(auto)]

mod context;
mod parent;
mod repeats;

pub use context::{Around, OUTERMOST, Place, all_around};
pub use parent::above;
pub use repeats::repeated;
