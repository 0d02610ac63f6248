//! The law of programs that run alike in whatever order C11 6.5p3 lets their operands come.
//!
//! `OrderLaw` asks all that `CLaw` asks, and that the order of the file's run is fixed: of the operands, arguments or initialisers of an
//! evaluation none sees what another one does. Where that alone fails, it rules N8, at the first evaluation whose operands do: an
//! initialiser list is one too, and ends behind its last initialiser, so of two initialisers it is the innermost list that has both. It runs a
//! file once, as `CLaw` does, and leaves in the same places what it read and how the run ended. It stands on `ruled_by` of `cr_lawful`, which
//! rules for any law of runs, and on `run_judged` of `cr_order_watch`.
#![tactic(auto)]

mod judged;
mod law;
mod laws;
mod lists;
mod loose;

pub use judged::outcome_judged;
pub use law::OrderLaw;
pub use laws::{
    ordered_files_are_lawful, ordered_files_have_no_reason, ordered_files_have_one_reason,
};
pub use lists::outer_of;
pub use loose::ended_in_order;
