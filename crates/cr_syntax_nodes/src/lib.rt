//! What each node of a unit is, by its number.
//!
//! A unit's tree spells its tokens from the top down; whoever walks over its nodes asks what a node is where it stands in the
//! list. Laws say it: each node is made by the alternative of its kind, with the tokens of its own span and the trees of
//! its own parts (`nodes_are_made`); so its parts are of the kinds that may stand there, and each of its own tokens has its
//! place between them (`nodes_are_laid`); the spans of its parts stand in its own, one behind the other (`parts_rise`); it has
//! as many parts as that alternative (`parts_are_counted`); the token with its own name, as that of a label or of the
//! label that a `goto` names, is an identifier (`nodes_have_names`), and so is the one that a declarator declares
//! (`declarators_have_names`). `loop_clauses` tells which clauses of a `for` are there (`loops_have_clauses`). Where nodes are
//! listed in order, as those of an analysis are, those below a node stand directly before it (`own_nodes_stand_before`), and
//! nodes stand in the order in which they end (`nodes_end_in_order`). It stands on the tree and the grammar of `cr_syntax` and the
//! order of `cr_syntax_order`.
#![tactic(auto)]

mod clauses;
mod laws;

pub use clauses::{Clauses, loop_clauses};
pub use laws::{
    declarators_have_names, loops_have_clauses, nodes_are_laid, nodes_are_made, nodes_end_in_order,
    nodes_have_names, own_nodes_stand_before, parts_are_counted, parts_rise,
};
