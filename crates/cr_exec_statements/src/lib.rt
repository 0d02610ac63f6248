//! The work of statements, declarations and the whole program (C11 6.8, 6.7.9, 5.1.2): `before` is a node's work before a part, and
//! `statement` its work behind its parts, on the answers that these gave. Each promises just what the meaning says, or its first case;
//! no call requires anything. Calls aside, all nodes that are no expressions are done here. It stands on the world of a run, on the
//! stack of nodes and on the own work of expressions.
#![tactic(auto)]

mod controls;
mod ends;
mod entry;
mod initial;
mod kept;
mod objects;
mod program;
mod work;

pub use entry::before;
pub use work::statement;
