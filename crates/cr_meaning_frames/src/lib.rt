//! The frame law: what an evaluation rests on that writes nothing, touches no volatile object and calls nothing (C11 5.1.2.3p2, 6.5).
//!
//! Such an evaluation that comes to an answer does so again in each memory that has the same in the cells that it reads, and in which
//! the objects live that live in the first: with the same value, the same events and the same steps, and it changes neither memory
//! (`evaluations_rest_on_their_reads`). So it doesn't matter when it is made, before or after one that spares these cells. The
//! program calls no function of this crate; it stands on runs that are seen, the meaning and the memory.
#![tactic(auto)]

pub mod laws;
