//! The passes of the product, as one list: each has a number, and those that are enabled offer their variants.
//!
//! A file is read once, by `cr_lawful_analysis`, and what each pass offers is listed from that; a variant is made from its number, without memory where there is room. It
//! promises what `cr_cursor` asks of passes, and stands on the pass crates and `cr_lawful_analysis`.
#![tactic(auto)]

mod index;
mod pass;
mod passes;

pub use index::Index;
pub use passes::CPasses;
