//! The memory of a running C program: objects of cells with their lifetimes, and pointers that know the array that they
//! point into. Each call on `Store` answers exactly what the memory model gives, or the first case in which the behaviour
//! is undefined or the program leaves the profile, and a refused call changes nothing. The store keeps the cells of all
//! objects one after another. It stands on cr_ints for the integer types.
#![tactic(auto)]

mod arithmetic;
mod flat;
pub mod laws;
mod lifetime;
mod span;
mod spans;
mod store;
mod value;

pub use store::Store;
pub use value::{
    CONSTANT_WRITTEN, Cell, DIFFERENT_ARRAYS, DIFFERENT_OBJECTS, END_COMPARED, ENDED, Element,
    Guard, LITERAL_WRITTEN, NO_ROOM, NULL_OR_END, OTHER_TYPE, Pointer, SUM_OUTSIDE, Scalar, Trap,
    UNSET, place_of,
};
