//! Formulas: tests that need no program, since they ask of a file which tokens stand in it and what its run comes to. `Formula::read` reads
//! the word of a command line that begins with `if:`, and refuses it exactly where it spells no formula. It stands on the lexer, on the
//! bytes of literals, and on the question whether a file has a text.
#![tactic(auto)]

mod formula;
mod laws;
mod parser;
mod status;
mod words;

pub use formula::{Formula, FormulaFault};
pub use laws::a_word_spells_one_formula;
