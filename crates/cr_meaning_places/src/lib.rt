//! Where places come from (C11 6.5p7): in every run each pointer leads to an object that was entered for a declaration, by the members and
//! elements of the types that it was declared with, and a scalar is read and written there as the kind that its own cell has. The program
//! calls no function of this crate; it stands on the meaning and on the soundness of evaluation, whose lemmas on memories it uses.
#![tactic(auto)]

pub mod laws;
