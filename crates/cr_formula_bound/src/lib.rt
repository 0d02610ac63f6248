//! The values of formulas: a formula bound to an input answers of a file what it asks of it, by the file's tokens, by what its run comes
//! to, and by what the input's run came to. `Bound` is a question that asks no judge. It stands on the law of programs for runs, and on
//! `memchr` for the search in what they print.
#![tactic(auto)]

mod bound;
mod file_end;
mod run;
mod value;

pub use bound::Bound;
