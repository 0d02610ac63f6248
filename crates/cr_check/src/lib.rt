//! The whole check of a unit whose names are known: the constraints of C11.
//!
//! A unit is sound, or it is refused for the first of its faults: a typedef name that is declared again with another type, then the first
//! constraint of K1 to K39 and K41 to K43 that it breaks, then K40. `specs/Checked.antt` says what a sound unit and the first fault of a unit
//! are; `check` promises both. `first_name_fault` answers the first fault of names that aren't all known. It stands on the surroundings of nodes, the typing of a unit, and what declarations have to be together.
#![tactic(auto)]

mod checked;
mod checking;
mod fault;
mod faults;
mod laws;
mod naming;

pub use checked::Checked;
pub use checking::check;
pub use fault::TypeFault;
pub use laws::{a_sound_unit_has_no_fault, a_unit_has_one_first_fault};
pub use naming::first_name_fault;
