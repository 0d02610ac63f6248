//! The passes of unused declarations (u) and of new names (r).
//!
//! It promises that the variants of each are those of its definition, each made exactly, and where there is room for it without memory. Both
//! go by the entities of a unit, so they stand on `cr_scopes` and `cr_scopes_events`, and on `pass_edit`, `pass_levels`, `cr_rows`, `cr_syntax` and
//! `cr_tokens`.
#![tactic(auto)]

mod laws;
mod members;
mod reach;
mod removal;
mod rename;
mod reserved;
mod short;

pub use laws::{a_name_is_free, numbers_have_own_names};
pub use removal::unused;
pub use rename::renamed;
