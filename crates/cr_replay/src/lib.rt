//! Logs of reductions, checked without the test. `follow` goes from a file along the rows of accepted variants, and
//! `check` says whether a log leads from a file to a result: each row by its cursor's variant, which is lawful, smaller,
//! and of the row's size, with turns that rise. Both are exact: they name the first row or line that fails. Whoever wrote
//! the log isn't trusted. Stands on `cr_log`, `cr_reduce`, `cr_pool`, `cr_cursor` and `cr_tokens`.
#![tactic(auto)]

pub mod laws;
mod rows;
mod verdict;

pub use rows::{Followed, follow};
pub use verdict::{Verdict, check};
