//! Makes the programs that a reduction can be tried on without a file: a number and a count of
//! items give one text of the C subset, always the same, in which no operation is undefined.
//! `make` answers that text exactly, as `specs/Program.antt` defines it. Stands on `std` alone.
#![tactic(auto)]

mod draws;
mod program;
#[cfg(test)]
mod tests;

pub use program::{NoMemory, make};
