//! How wide the levels of the passes over a tree are: laws, one for each pass, that no level of it has more edits than the file has tokens; and that
//! a unit has at most twice as many nodes as tokens.
//!
//! Each node spells tokens of its own, or its parts do, and each edit of a level is paid for by such a token, which pays for no other. It
//! stands on the definitions of those passes, on the grammar of `cr_syntax`, and on what `cr_syntax_nodes` says of a unit's nodes.
#![tactic(auto)]

mod laws;

pub use laws::{
    expressions_are_few, inlined_are_few, nodes_are_few, output_is_few, parameters_are_few,
    printed_are_few, renamed_are_few, statements_are_few, unused_are_few, values_are_few,
};
