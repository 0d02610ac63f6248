//! What each expression of a unit has, and which constraint of C11 6.5 it breaks, given what is known of the nodes that declare
//! names, name types and define structures.
//!
//! What an expression has is one equation, which speaks of the nodes before it: `specs/Ruled.antt` has one clause a form of
//! expression. A row of the table of constraints (K16 to K37) is a clause of `specs/Breaks.antt`: what a node breaks by what it has
//! and what its parts have. It promises that `rule` answers just the one and `expression_break` the first of the other, for one node; who goes
//! over a unit's nodes is `cr_check_unit`. It stands on the operators, the types and the tree.
#![tactic(auto)]

mod call;
mod fault;
mod form;
mod known;
mod least;
mod operands;
mod rules;
mod used;

pub use fault::expression_break;
pub use form::{Form, form_of};
pub use known::{Declared, Known, Member};
pub use least::{Break, break_if, lesser};
pub use operands::{NO_FACT, is_typed, operand, part_at, value};
pub use rules::rule;
pub use used::is_valued;
