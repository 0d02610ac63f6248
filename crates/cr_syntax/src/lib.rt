//! The syntax tree and the grammar of the subset (C11 Annex A), as definitions that a parser is proved against.
//!
//! It has the types of the tree, what every unit keeps of its nodes, the word that a token is to the grammar, and the
//! grammar itself: one constructor an alternative in `specs/Grammar.antt`, what its symbols mean in `specs/Spells.antt`,
//! units, viable prefixes and the first refusal in `specs/Units.antt`, and the same of an expression in the middle of a
//! text in `specs/Expressions.antt`. It promises that each kind of node has one alternative, which a table gives, and that
//! reading a tree by recursion takes exactly the grammar's units, so that the examples in `proofs/Examples.antt` are facts
//! about the grammar. It stands on the tokens, the integer types and the rows.
#![tactic(auto)]

mod ctype;
mod laws;
mod node;
mod numbered;
mod part;
mod scopes;
mod shape;
mod unit;
mod word;

pub use ctype::CType;
pub use laws::{
    latest_declaration_decides, reading_is_spelling, table_is_grammar, tokens_are_spans,
};
pub use node::{Kind, Node, number_of};
pub use numbered::{first_token_at, kind_at, parts_at, spelling_at};
pub use part::{Context, MOST_LEVELS, Part};
pub use scopes::{OpenScopes, Scope, TypeName, begin, enter, is_type};
pub use shape::{FRESH, ends_open, first, is_bare, past_node, past_token, rest_of};
pub use unit::Unit;
pub use word::{Word, word_at};
