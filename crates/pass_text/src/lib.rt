//! The passes that need no tree: chunks of lines (l), runs of tokens (t), and brackets (b).
//!
//! It promises that the variants of each are those of its definition, each made exactly, and where there is room for it without memory. Which
//! bracket closes which is the grammar of nesting (`Nests`): `partners` gives the pairs exactly where there is a nesting, and there is one at
//! most. It stands on `cr_cursor`, `pass_edit`, `pass_levels` and `cr_tokens`; the nesting stands on std alone.
#![tactic(auto)]

mod laws;
mod lines;
mod matching;
mod nesting_laws;
mod pair;
mod pairs;
mod reading;
mod runs;

pub use laws::{few_brackets, lines_go_by_a_change, one_bracket_offering};
pub use lines::{count_lines, lines_variant, lines_width};
pub use matching::partners;
pub use nesting_laws::{few_pairs, one_nesting};
pub use pair::Pair;
pub use pairs::brackets;
pub use runs::runs_of_tokens;
