//! Types (C11 6.2.5, 6.7): a table of them whose rows name each other, with `const` and `volatile` at each level; which
//! types are compatible (6.2.7), their composite, whether a type is complete at a node, what a declarator makes of a type,
//! and the sizes of types. Clauses speak of the type of a row. Each call answers exactly its definition; the only error is
//! want of memory. It stands on the tree and the integer types.
#![tactic(auto)]

mod compatible;
mod complete;
mod composite;
mod derived;
mod layout;
mod shape;
mod table;

pub use layout::{Layout, NOTHING, closed, offset, with_member};
pub use shape::Shape;
pub use table::Table;
