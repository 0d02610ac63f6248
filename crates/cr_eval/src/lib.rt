//! The own work of a node of an expression (C11 6.5), on the values of its operands: `work_none`, `work_one` and `work_two`, by
//! the number of these. Each answers what the meaning gives, the value with what the node reads and writes by itself, or the first
//! case of undefined behaviour or of leaving the profile; no call requires anything, and only structures take memory. What the work
//! needs of types and objects stands in a `Table`, made once for a program. It stands on the meaning and the memory.
#![tactic(auto)]

mod did;
mod integers;
mod operators;
mod places;
mod pointers;
mod storing;
mod table;
mod values;
mod work;

pub use did::{Deeds, Did};
pub use places::load;
pub use pointers::{as_pointer, misfits};
pub use table::Table;
pub use values::{UNUSED_VALUE, asked, converted, integer, is_nothing};
pub use work::{work_none, work_one, work_two};
