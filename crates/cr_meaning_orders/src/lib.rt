//! Programs that run alike in any order (C11 6.5p3).
//!
//! C leaves open in which order the operands of most operators, the arguments of a call and the initialisers of a list are evaluated. The
//! meaning goes from left to right. Here stand the runs in any order, of which that is one (`left_to_right_is_an_order`); the programs
//! whose order is fixed, since in their run from left to right no operand sees what another one does; and the theorem: a well-typed
//! program of these has the same status, output, steps and memory in each order (`fixed_programs_run_alike`), so that it means one thing
//! (`fixed_programs_mean_one_thing`). Operands are evaluated whole; finer interleaving isn't covered.
//!
//! The program calls no function of this crate; it stands on the frame law, runs that are seen, and the soundness of the meaning.
#![tactic(auto)]

pub mod laws;
