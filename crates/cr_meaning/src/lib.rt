//! The meaning of a program of the subset (C11 6.5 to 6.9, 5.1.2.3): what it does step by step, as definitions that a reader
//! compares with the standard, and laws about them. The program calls no function of this crate; the interpreter is proved to
//! answer what the meaning says.
//!
//! The meaning is stated over operations, one a node: what work a node does on which operands, with the types, sizes and
//! offsets that this work needs. It stands on the memory, the integer operations, the footprints and the library's formats.
#![tactic(auto)]

pub mod laws;
mod op;
mod run;
mod value;

pub use op::{
    Access, Callee, Case, Change, Form, Line, Op, Operator, Parameter, Relation, Sign, Target, Work,
};
pub use run::{Limits, Run};
pub use value::Value;
