//! Which declaration an ordinary identifier or a tag of a unit stands for where it is written, and at which nodes it is declared (C11 6.2.1,
//! 6.2.2, 6.7.2.3).
//!
//! `cr_scopes` says which tokens stand for one thing. The constraints of C ask for more: the type of a name is that of the declaration that
//! is visible where the name is used, a declaration of an identifier with linkage is compared with the one before it, and a tag's content
//! may stand elsewhere. Each column is said by looking back over the events of the unit, or as the last node or token of a kind. It stands
//! on the tree, its events and its names.
#![tactic(auto)]

mod bindings;
mod entities;
mod last;
mod nodes;
mod scoped;
mod visible;

pub use bindings::{Bindings, TagBinding};
pub use last::set_link;
pub use nodes::name_at;
