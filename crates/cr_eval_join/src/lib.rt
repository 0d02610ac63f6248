//! One node of an expression (C11 6.5): `next` says which operand is evaluated next, from the results so far; `named`, `join_none`,
//! `join_one` and `join_two` do the work of a node once its operands are evaluated, by the number of these. The footprints of the
//! operands are joined first, then comes the node's own work, then its own events: a conflict is U12. Each answer is the meaning's,
//! the value with a footprint of just its events, or its first case, and no call requires anything. `argument` joins the footprints of
//! a call's arguments. It stands on the own work of nodes, on footprints and on the meaning.
#![tactic(auto)]

mod feet;
pub mod laws;
mod node;
mod part;
mod turn;
mod way;

pub use feet::{UNSEQUENCED, argument};
pub use node::{join_none, join_one, join_two, named};
pub use part::Part;
pub use turn::{ahead, next, truth_of};
pub use way::Next;
