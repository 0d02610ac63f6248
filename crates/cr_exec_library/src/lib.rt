//! The calls of the C library that the profile has (C11 7.21.6.3, 7.21.7.7, 7.22.4.4): `printf`, `putchar`, and the status of `exit`,
//! on the values of their arguments. Each answers what the meaning gives, the value and what stands in the output then, or its first
//! case. It stands on the formats of the library, on the own work of nodes and on the meaning.
#![tactic(auto)]

mod calls;
mod pieces;
mod text;

pub use calls::{LEFT_BY_FORMAT, LEFT_BY_OUTPUT, any_nothing, exit, printf, putchar, status_of};
pub use pieces::MISMATCH;
