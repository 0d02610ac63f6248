//! Objects with initialisers in a unit (C11 6.7.9): which expressions are address constants, which objects live as long as the program
//! runs, the type that an initialiser completes, and the constraints that initialisers break.
//!
//! Each is one equation a node, by what the nodes before it have; the plan of an initialiser is the relation of `cr_check_initialisers`, which
//! gives one plan. It stands on initialisers, the rules of declarations and the tree.
#![tactic(auto)]

mod anchors;
mod durations;
mod faults;
mod initialised;
mod laws;
mod source;

pub use anchors::anchor_of;
pub use durations::is_static;
pub use faults::initialiser_break;
pub use initialised::{Filled, fill};
pub use laws::one_filling;
