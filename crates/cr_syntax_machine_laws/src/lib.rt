//! The laws of the parser's machine: what it answers is what the grammar says.
//!
//! Of an expression in the middle of a text it answers the reading, of a unit the tree of its tokens or their first refusal (`machine_is_grammar`,
//! `machine_is_units`). From that it follows that the grammar leaves no choice: tokens have at most one tree, a start at most one reading, a token
//! list that the machine refuses no other first refusal, and one that has a tree none (`one_tree`, `one_unit`, `one_reading`, `one_first_refusal`).
//! All of these are laws over definitions of `cr_syntax_machine` and `cr_syntax`, and stand beside the parsers of expressions, which need none.
#![tactic(auto)]

mod laws;

pub use laws::{
    machine_is_grammar, machine_is_units, one_first_refusal, one_reading, one_tree, one_unit,
};
