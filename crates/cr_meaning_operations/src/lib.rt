//! The operations of a typed unit: what each node of its tree does, as a definition. With it the meaning of programs over
//! operations is the meaning of a unit. The program calls no function of this crate; it stands on the typed unit and the meaning.
#![tactic(auto)]

pub mod laws;
