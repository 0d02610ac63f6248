//! A reduction whose acceptances are kept in a journal, and that goes on from there. `replay` follows the rows that were recovered
//! from the file that the reduction began with, or names the first that doesn't follow; `reduce_kept` goes on behind them, and adds
//! the row of each acceptance to the journal before it goes on. At every moment of it a stop leaves the header and a front of what
//! the whole reduction accepts. Stands on `cr_journal_rows`, which has the journal, on `cr_replay`, which follows rows, and on
//! `cr_reduce`.
#![tactic(auto)]

mod keeper;
pub mod laws;
mod reduction;
mod replaying;

pub use reduction::{KeptEnd, reduce_kept};
pub use replaying::replay;
