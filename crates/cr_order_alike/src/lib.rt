//! A file that `OrderLaw` takes comes to one end in whatever order its operands are evaluated (C11 6.5p3, 6.5.2.2p10, 6.7.9p23).
//!
//! It joins the law of `cr_order`, on what is ruled of a file, and that of `cr_meaning_files`, on the typed unit of a file whose order is fixed.
//! So it stands above both, and nothing that is run stands above it: the program calls no function of this crate.
#![tactic(auto)]

mod laws;

pub use laws::ordered_files_run_alike;
