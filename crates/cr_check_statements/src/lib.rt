//! Which constraint of C11 6.8 each statement of a unit breaks, given what its expressions have and what stands around it.
//!
//! A row of the table of constraints (K38, K39, K42, K43) is a clause of `specs/Statements.antt`, and of all breaks the first is
//! answered. What repeats an earlier mark of its `switch` or its function, and the label that a `goto` may name, are handed in. It
//! stands on the rules of expressions, the places of nodes and the clauses of loops.
#![tactic(auto)]

mod first;
mod setting;
mod statements;

pub use first::check_statements;
pub use setting::Setting;
pub use statements::statement_break;
