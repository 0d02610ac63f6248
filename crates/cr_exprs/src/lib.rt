//! The parser of expressions of the subset (C11 6.5), with the type names that casts and `sizeof` draw in (6.7.2, 6.7.6,
//! 6.7.7).
//!
//! `expression` reads an expression from some token of a file on, by the functions of `cr_exprs_descent`, and what it answers is said in terms of the
//! grammar alone, by the laws of `cr_syntax_machine_laws`. It appends the nodes that it makes in the order of `cr_syntax_order`, parts before their
//! node, and knows of the scopes which identifiers are types. The parser of units calls the descent itself.
#![tactic(auto)]

mod behind;
mod front;
mod names;

pub use cr_exprs_descent::{Goal, ParseFault};
pub use front::expression;
pub use names::TypeNames;
