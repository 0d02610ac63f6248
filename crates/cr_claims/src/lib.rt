//! The two shared words of an epoch, and the pass that each worker holds.
//!
//! Workers in several threads claim positions by one `fetch_add` on the word `next`, and bring down the word `least` by one
//! `fetch_min` for a hit; a look and a leave load `least` once. Over every interleaving of these steps the two words with the lists
//! of all passes are a sound state of the speculative core, so when all passes are joined again the word `least` names the first
//! position in order that wasn't rejected. None of the four waits or takes memory. `Seat` is the type that `steady` tells of a pass.
//! It stands on cr_core and `atomic_table`.
#![tactic(auto)]

mod laws;
mod plays;
mod seats;
mod view;

pub use atomic_table::Seat;
pub use laws::{each_step_is_an_event, words_and_passes_are_a_core};
pub use seats::{Claims, Pass};
pub use view::View;
