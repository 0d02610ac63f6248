//! The tokens of a C file: how its bytes fall into keywords, identifiers, constants, string literals
//! and punctuators (C11 6.4), and into white space, comments and skipped lines between them; the first
//! fault where they don't; the file's size as the reduction measures it; and whether one file's tokens
//! stand in another's as an unbroken run. `read`, `first_fault`, `size` and `contains` are exact on both
//! sides, and `laws` says that a file has one list of tokens or one first fault, never both. It stands
//! on the standard library, and on `thiserror` for the texts of the faults.
#![tactic(auto)]

mod blank;
mod bytes;
mod item;
pub mod laws;
mod literal;
mod measure;
mod number;
mod punctuator;
mod reader;
mod run;
mod token;
mod word;

pub use bytes::same_spelling;
pub use measure::size;
pub use reader::{first_fault, read};
pub use run::contains;
pub use token::{MAX_BYTES, MAX_TOKENS, Token, TokenFault, TokenKind, Tokens};
pub use word::is_keyword;
