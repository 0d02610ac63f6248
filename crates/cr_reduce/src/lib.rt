//! The greedy reduction: passes propose variants of a file, the first accepted one becomes the file, and rounds are
//! repeated until one round accepts nothing. Here stands `reduce`, whose contract is the one-thread first-accepted
//! reduction, whatever the number of workers and the window are, and `resume`, which goes on with one that was stopped and has
//! each acceptance kept by a `Keeper`. Stands on `cr_pool`, whose epochs try the positions, on `cr_cursor`, whose traits it is
//! generic over, and on `cr_outside` and `cr_tokens`.
#![tactic(auto)]

mod advance;
mod end;
mod greedy;
mod keeper;
pub mod laws;
mod look;
mod measure;
mod pace;
mod resuming;
mod take;
mod walk;

pub use end::{Accepted, End, Kept, Plan, Why};
pub use greedy::reduce;
pub use keeper::{Keeper, NoKeeper};
pub use look::length_of;
pub use measure::size_of;
pub use resuming::resume;
