//! The passes of statements (s) and of the printed unit (f).
//!
//! It promises that the variants of each are those of its definition, each made exactly, and where there is room for it without memory. It
//! stands on `pass_edit`, `pass_levels`, `cr_printer`, `cr_rows`, `cr_syntax` and `cr_tokens`.
#![tactic(auto)]

mod bodies;
mod labels;
mod laws;
mod levels;
mod whole;

pub use laws::{one_printed_offering, the_text_is_the_variant};
pub use levels::statements;
pub use whole::printed;
