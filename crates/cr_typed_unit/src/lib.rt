//! A unit without fault as a typed unit, which can be run.
//!
//! `typed` makes the columns of a unit that was checked and found without fault; `specs/Typed.antt` says which those are. That they have
//! what a run asks is proved, but for the cells and structures of types, which are tested (`cr_typed_fit`). It stands on the whole check, on
//! the columns of a typed unit and on the test of their types.
#![tactic(auto)]

mod columns;
mod laws;
mod typing;

pub use laws::one_typed_unit;
pub use typing::typed;
