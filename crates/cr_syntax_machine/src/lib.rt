//! The parser of the subset as a machine, as a definition that the parsers are proved against.
//!
//! `specs/Machine.antt` says what a program of the machine is and how programs run, and `specs/MachineBody.antt` gives each goal, which is what one
//! function of a parser reads, its program. That its answers are the grammar's is a law of `cr_syntax_machine_laws`; no code runs the machine. It
//! stands on the tree and the grammar of `cr_syntax`.
#![tactic(auto)]
