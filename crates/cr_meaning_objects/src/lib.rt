//! What declares one function or object of a file's unit agrees, and what is put into it is of its type (C11 6.2.7, 6.5.2.2, 6.7.9, 6.9).
//!
//! Declarations agree in their type, in its composite, in linkage and duration, and one at most defines what they declare; initialisers fill
//! parts and arguments parameters, each of the type that is there. A module for each law. The program calls no function of this crate.
#![tactic(auto)]

pub mod called;
pub mod chained;
pub mod closed;
pub mod composed;
pub mod initialised;
pub mod kept;
pub mod mains;
pub mod objects;
pub mod parameters;
