//! Calls on the stack (C11 6.5.2.2): `call_before` begins a call of a function of the program once its arguments are evaluated, and
//! `call_end` ends it once its body has answered; `call_end` also does the whole of a call of the library. Each promises the
//! meaning's answer, with a footprint of just the arguments' events, or its first case, and no call requires anything. It stands on
//! the joining of arguments, on the calls of the library, on the world of a run and on the stack of nodes.
#![tactic(auto)]

mod before;
mod clashes;
mod convert;
mod end;
mod library;
mod taken;

pub use before::{LEFT_BY_DEPTH, call_before};
pub use end::call_end;
