//! The parser of declarations, statements and units of the subset (C11 6.7, 6.8, 6.9).
//!
//! `parse` reads the one unit that spells the tokens of a file, or names the first refusal, by recursive descent: one
//! function a goal of the machine in `cr_syntax_machine`, whose definition says what it answers. Expressions, specifiers and
//! declarators are read by `cr_exprs_descent`. It stands on the parser of expressions, the syntax tree and its grammar, the
//! tokens and the rows.
#![tactic(auto)]

mod clauses;
mod declarations;
mod ellipsis;
mod externals;
mod front;
mod labels;
mod names;
mod simple;
mod start;
mod statements;

pub use front::parse;
