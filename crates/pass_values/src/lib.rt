//! The pass of values (v): what passes through a variable.
//!
//! It promises that its variants are those of its definition, each made exactly, and where there is room for it without memory. A value that comes in
//! another place is spelled anew from its tokens, in brackets. It goes by the entities of a unit, so it stands on `cr_scopes` and
//! `cr_scopes_events`, and on `pass_edit`, `pass_levels`, `cr_rows`, `cr_syntax`, `cr_tokens`, and `pass_params` for the uses of a name and for
//! changes in order.
#![tactic(auto)]

mod assigned;
mod bare;
mod declarators;
mod initial;
mod known;
mod lefts;
mod levels;

pub use levels::values;
