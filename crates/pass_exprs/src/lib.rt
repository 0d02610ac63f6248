//! The pass of expressions (c): each becomes a constant, or one of its operands.
//!
//! It promises that the variants are those of its definition, each made exactly, and where there is room for it without memory. It stands on
//! `pass_edit`, `pass_levels`, `cr_syntax` and `cr_tokens`.
#![tactic(auto)]

mod levels;
mod operands;

pub use levels::expressions;
