//! A list in which a pattern that comes over and over takes no room: its items are made block by block, when one of them is first set.
//! Each call answers as on the plain list, and stands on std alone.
#![tactic(auto)]

mod blocks;
mod sequence;
mod stretch;
mod times;

pub use sequence::{Part, Sequence, give_back};
pub use stretch::Stretch;
pub use times::Times;
