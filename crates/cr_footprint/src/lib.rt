//! Footprints: which cells of memory the evaluation of an expression reads and writes, and whether
//! two unsequenced evaluations conflict (C11 6.5p2). A `Foot` holds the read cells, the written or
//! touched ones, and of these the ones whose write no sequence point has settled yet, and nothing else;
//! joining two operands answers the least cell on which they conflict exactly where there is one. One
//! cell of a kind takes no memory, up to four take one block. Stands on `smallvec`.
#![tactic(auto)]

mod cells;
mod end;
mod foot;
mod list;

pub use end::FootEnd;
pub use foot::{Foot, NoMemory};
