//! The tests of both parsers, `cr_exprs::expression` and `cr_decls::parse`: texts with their trees and their refusals.
//!
//! They stand above the two crates, so that neither proves its functions once more for its tests, and so that one way to
//! show a tree serves both. It promises that `are_spans` answers whether tokens are parts of a file and at most 262,144,
//! which is enough for the parsers, and stands on the parsers and what these stand on.
#![tactic(auto)]

#[cfg(test)]
mod expressions;
mod spans;
#[cfg(test)]
mod texts;
#[cfg(test)]
mod units;

pub use spans::are_spans;
