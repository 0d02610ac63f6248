//! What the levels of the passes are made of: edits counted in the order of their places, and runs of tokens that go.
//!
//! A level over a tree is what each node gives: a list of counted edits. The loop over the nodes and the order, by the first token and outer
//! ones first, are here once, so that a level is one function of a node, and so are the edits by which a text or another node comes in a
//! node's place. A level over runs or names is what each number gives, in turn.
//! It stands on `pass_edit`, `cr_syntax`, `cr_tokens` and `cr_rows`.
#![tactic(auto)]

mod counted;
mod level;
mod node;
mod order;
mod place;

pub use counted::Counted;
pub use level::{Level, Turns, in_turn, list};
pub use node::{
    becoming, behind_first, bytes_of, first_of, kind_at, parts_at, put_each_becoming,
    put_in_its_place, span_at,
};
pub use order::sort;
pub use place::{gone, replaced, spelling_at, with_comma};
