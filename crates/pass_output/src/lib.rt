//! The pass of output (o): what `printf` prints.
//!
//! It promises that its variants are those of its definition, each made exactly, and where there is room for it without memory. A format is read
//! as it is spelled, so that a conversion is some bytes of its literal. It stands on `pass_edit`, `pass_levels`, `cr_rows`, `cr_syntax` and
//! `cr_tokens`.
#![tactic(auto)]

mod beside;
mod conversions;
mod formats;
mod known;
mod levels;
mod numbers;
mod taken;

pub use levels::output;
