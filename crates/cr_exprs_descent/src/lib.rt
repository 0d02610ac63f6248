//! The recursive descent that reads expressions of the subset (C11 6.5), with the type names that casts and `sizeof` draw in (6.7.2, 6.7.6, 6.7.7).
//!
//! One function a goal of the machine in `cr_syntax_machine`, whose definition says what it answers; `whole` and `read` begin at any token, and
//! declarators and specifiers are read for declarations too. Nodes are appended in the order of `cr_syntax_order`, parts before their node, and the
//! scopes tell which identifiers are types. It stands on the syntax tree and the grammar of `cr_syntax`, the tokens and the rows.
#![tactic(auto)]

mod arena;
mod calls;
mod declarators;
mod expressions;
mod fault;
mod found;
mod goal;
mod operands;
mod reading;
mod scopes;
mod source;
mod specifiers;
mod tables;

pub use arena::{drop_to, leaf, over, pair, past, push, row_of, triple};
pub use calls::{named_declarator, specifier_row};
pub use fault::ParseFault;
pub use found::{Found, Optional};
pub use goal::Goal;
pub use reading::{read, whole};
pub use scopes::{bring, declare, drop_scope, give_back, taken};
pub use source::{
    Source, barred, expect, here, is_type_identifier, refused, room, stands, starts_specifier,
    words_of,
};
