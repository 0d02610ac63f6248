//! The records of a journal on a disk. Each has 32 bytes: a gate, and a body of 31. It stands where its gate is 1 and at least the
//! next record's gate is there. `begin` makes a journal of one record, `add` adds one behind those that stand, and `recover` reads
//! those that stand and closes the gate behind them. Each keeps, at every moment and whatever a stop leaves: no record stands
//! that wasn't added, and what stands keeps standing. Stands on `cr_outside_disk`.
#![tactic(auto)]

mod laws;
mod records;
mod recovery;

pub use laws::an_image_has_one_list_of_records;
pub use records::{add, begin};
pub use recovery::recover;
