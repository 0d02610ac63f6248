//! The tests of the operators, of declarations and of initialisers, as tables with types in words and what comes of them, worked out by
//! hand.
//!
//! They stand above `cr_check_operands`, `cr_check_declarators` and `cr_check_initialisers`, so that none of these proves its functions once more for its tests,
//! and below the parsers. It promises nothing but that it is safe; `all_rows` tells whether numbers are rows of a table, `row_of` and
//! `push_type` read and write types in words, and `pair`, `triple`, `quadruple` and `expect` read and assert a row of a table, also for
//! the crates of tests above.
#![tactic(auto)]

#[cfg(test)]
mod declarators;
#[cfg(test)]
mod initialisers;
#[cfg(test)]
mod lists;
#[cfg(test)]
mod names;
mod nodes;
#[cfg(test)]
mod operands;
#[cfg(test)]
mod reading;
mod rows;
#[cfg(test)]
mod specifiers;
mod within;
mod words;

pub use nodes::nodes_with;
pub use rows::{expect, pair, quadruple, triple, without, yes_or_no};
pub use within::all_rows;
pub use words::{constant_in, expect_type, name_of, push_type, row_between, row_of};
