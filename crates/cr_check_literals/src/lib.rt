//! Columns of a typed unit that need no constraint: what each node of a kind has, by its tokens alone.
//!
//! A string literal has the bytes of its tokens, joined, with escape sequences read and a zero behind them (C11 6.4.5). It stands on
//! the tokens and the nodes.
#![tactic(auto)]

mod escape;
mod literals;

pub use literals::{literal_bytes, texts};
