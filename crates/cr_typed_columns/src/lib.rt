//! A typed unit from what was checked of its nodes.
//!
//! The types of the unit go into a table of its own, in which each has one row: those of its expressions, of its declared names, of
//! its members and of what its initialisers initialise, in the order of the nodes, and each behind the one that stands below it. So
//! the table, and every row of it, depends on the types alone and on no table in which they were found. The other columns say what
//! each node has in a run: which names stand for one entity (C11 6.2.2), how long an object lives (6.2.4), which places are used as
//! values (6.3.2.1), what is constant (6.6), which member is named (6.5.2.3), and which expression initialises which part (6.7.9).
//! Each column is its definition. It stands on what declares each name and on the rules of expressions and declarations.
#![tactic(auto)]

mod assembling;
mod checked;
mod copying;
mod expressions;
mod functions;
mod lasts;
mod laws;
mod naming;
mod plans;
mod reading;
mod rows;

pub use assembling::assemble;
pub use checked::CheckedColumns;
pub use laws::one_typed;
