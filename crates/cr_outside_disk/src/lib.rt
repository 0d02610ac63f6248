//! One file of bytes that outlives a stop, as a journal needs it. The trait `Disk` says what each call adds to the one story of
//! the outside that `cr_outside` has; what a stop may leave of the file, within a write too, and what holds at every moment of a
//! call are definitions on that story, so that an object that meets the trait proves nothing about time. `MemDisk` is
//! such a disk in memory, with files beside it; it gives images as a stop leaves them, and fails at the calls that it is
//! told to fail at.
#![tactic(auto)]

mod disk;
mod laws;
mod memory_disk;

pub use disk::{Disk, DiskFault};
pub use laws::what_a_read_gives_is_an_image;
pub use memory_disk::MemDisk;
