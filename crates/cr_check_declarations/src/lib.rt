//! What each node of a unit has as a part of a declaration (C11 6.7), by what the nodes before it have, and which constraint it
//! breaks.
//!
//! A column is one equation a kind of node: what specifiers say and which type they name, what a declarator has and what it
//! derives, the type of each declared name, parameters, members, structures, enumerators. A row of the table of constraints is a
//! line of `specs/Faults.antt`: what a node breaks by what it has itself and what the nodes before it have. It stands on the rules
//! of declarations, the rules of expressions and the tree.
#![tactic(auto)]

mod before;
mod contents;
mod declaration;
mod declarators;
mod definition;
mod faults;
mod lists;
mod names;
mod ordinary;
mod specifiers;
mod tree;

pub use before::{Columns, declared_of, named_of, parameters_at, specified_of};
pub use contents::{enumerator, structure};
pub use declaration::{declaration_of, is_declarator, is_initialised, specifiers_in};
pub use declarators::{declarator, derivations};
pub use definition::name_in;
pub use faults::{Own, declaration_break, fault_at, place_of, token_if};
pub use lists::{members, parameters};
pub use names::named;
pub use ordinary::{class_of, declared};
pub use specifiers::specified;
pub use tree::{Tag, Tree, above, earlier, first_of, kind_of, same, spelling, visible};
