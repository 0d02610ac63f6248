//! What a person needs beside the program's line: which word is in no form and what says here what it meant, where a file's first fault stands
//! and what can be done about that byte, token or name, and what each other status comes of; the help, and what each number of a refusal means.
//!
//! `explanation` makes the text of a status, of the words, of the line that the program put and of what the caller saw; it changes nothing
//! and reads nothing. Nothing is promised of its texts but that they are made: it is safe and total. `row_of` answers the row of a number in
//! docs/NUMBERS.md, of which docs/texts writes them, and each number that the law gives has one. `first_place` finds the fault again by the
//! functions that the law is proved of: the lexer, the parser, the names and the types. It promises nothing of the place but that the search
//! ends.
#![tactic(auto)]

mod asked;
mod ends;
mod extensions;
mod fault_place;
mod forms;
mod formulas;
mod help;
mod library;
mod lines;
mod options;
mod place;
mod refusals;
mod remedies;
mod rows;
mod shown;
mod tables;
mod text;
mod values;
mod words;

pub use asked::{asked_text, help_text};
pub use ends::{Seen, TestSeen, explanation, places_of};
pub use extensions::extension_remedy;
pub use fault_place::first_place;
pub use lines::{Refused, read_refusal};
pub use place::{Place, is_of_library, text_at};
pub use refusals::refusal_text;
pub use rows::{Kind, Row, form, row_of};
pub use text::{form_text, number_of, number_text, push_folded};
pub use words::word_fault;
