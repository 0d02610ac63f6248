//! Labels of statements (C11 6.8.1): which `case`, `default` and label repeats an earlier one, and which label a `goto` names.
//!
//! Two cases of one `switch` may not have one value after their conversion (6.8.4.2p3, p5), a `switch` has one `default` at the most,
//! and the labels of a function differ. A `goto` names a label on an item of a compound statement around it. It stands on the rules of
//! expressions and the places of nodes.
#![tactic(auto)]

mod gotos;
mod labelled;
mod marks;
mod repeating;

pub use gotos::labels;
pub use labelled::Labelled;
pub use repeating::again;
