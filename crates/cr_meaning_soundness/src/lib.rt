//! Evaluation keeps well-typedness (C11 6.3.2.3, 6.5, 6.7.9, 6.8, 6.2.4): what the operations of a program must be, and that then
//! every value fits the type that its operation says, in the memory of its moment and in all later ones, and every statement is left
//! only as it may be. The program calls no function of this crate; it stands on the meaning and the memory.
#![tactic(auto)]

pub mod laws;
