//! The operating system behind the reducer's traits: its files, a journal's file, standard output, and programs as tests.
//!
//! Each adapter means what its trait in `cr_outside` or `cr_around` says. It tells no content, so of the disk nothing is claimed; it answers
//! `Failed` only where its count of faults rose. What a test program's end answers, and how the shell is told to start it, are definitions
//! in `specs/Trial.antt`. Beside its answers, the judges that share a `Progress` keep the smallest file that passed the test and say on
//! standard error how far they are. It stands on `cr_around`, `cr_outside`, `cr_outside_disk` and std alone.
#![tactic(auto)]

mod best;
mod faults;
mod found;
mod lock;
mod older;
mod part;
mod paths;
mod process_judge;
mod progress;
mod room;
mod standard;
mod std_disk;
mod std_files;
mod std_out;
mod sums;
mod trial;
mod watchman;
mod width;

pub use found::{facts, has_length};
pub use lock::{Lock, Taking, is_others, is_within, takes_folders};
pub use process_judge::ProcessJudge;
pub use progress::{Progress, Shown};
pub use standard::hold_standard;
pub use std_disk::StdDisk;
pub use std_files::{StdFiles, read_most};
pub use std_out::StdOut;
pub use sums::sum_of;
pub use watchman::{Watchman, watch};
pub use width::columns;
