//! Initialisers without designators (C11 6.7.9): which part of an object each expression initialises, how many elements an array of
//! unknown size gets, and the constraints K11, K12, K13 and K37 of them.
//!
//! The definition speaks of the places that are left: an initialiser takes the first, or the parts of that place stand in its stead.
//! `plan` answers exactly that relation, which gives one plan, with cells that rise inside the object; the first fault is that of
//! all entries. What is known of types and nodes is read from columns, of which nothing is asked: what a column doesn't have counts as
//! without type. The only error is want of memory, also where a number of cells doesn't fit. It stands on the types, the constants, the
//! operands and the rules of expressions.
#![tactic(auto)]

mod anchor;
mod fault;
mod kind;
mod laws;
mod lines;
mod part;
mod source;
mod walk;

pub use anchor::{
    Anchor, anchor_of_address, anchor_of_cast, anchor_of_member, anchor_of_object,
    anchor_of_reached, anchor_of_subscript, is_address,
};
pub use fault::first_fault;
pub use laws::{
    cells_are_laid_out, first_is_least, has_plan, one_plan, plans_stay_inside, stays_inside,
};
pub use lines::{Line, complete, length_asked, plan, puts};
pub use source::Source;
