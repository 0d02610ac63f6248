//! What is seen of a run: which nodes are evaluated in it, one within the other, each with its events (C11 5.1.2.3p2, 6.5p2), as a
//! forest; and the marks of their begins and ends, in turn, which are what a machine can note as it goes.
//!
//! A run of the meaning is a derivation, which has no names for its parts. Here it is seen: each run has one forest
//! (`runs_are_seen`, `sights_are_one`), what is seen is a run (`sights_are_runs`), and a run of the meaning that notes each begin
//! and end has seen just the marks of its forest (`notes_are_marks`). The program calls no function of this crate; it stands on the
//! meaning alone.
#![tactic(auto)]

pub mod laws;
