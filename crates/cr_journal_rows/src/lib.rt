//! What a journal keeps of a reduction: a header, by which the run that goes on with it knows that it is its own, and a row for
//! each accepted variant. Each is the body of one record, its numbers little-endian, five zero bytes at its end. `begin` makes a
//! journal of a header, `add` adds a row, and `recover` reads back what stands, or names the first record that isn't in the
//! form. At every moment of each call, within a write too, a stop leaves a header and rows that were added, in their order, and
//! what stands keeps standing. Stands on `cr_journal_records`.
#![tactic(auto)]

mod fault;
mod header;
mod journal;
mod laws;
mod number;
mod row;

pub use fault::{JournalFault, from_disk};
pub use header::Header;
pub use journal::{add, begin, recover};
pub use laws::a_body_is_of_one_row;
