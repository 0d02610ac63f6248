//! One epoch of workers over the variants of one file.
//!
//! A bench has a judge for each worker. In an epoch each worker claims positions by `cr_claims`, in a thread of its own where one can
//! be made: it makes the variant there, measures it, has the law rule on it where it is smaller, asks the question where it is lawful
//! too, and leaves once a lower position is a hit. A bench keeps verdicts from one epoch to the next, so a file that was tried lately
//! is neither ruled on nor asked about again. The crate promises that the epoch ends by the first position in order that wasn't
//! rejected, whatever order the trials end in, that no position is asked about twice, and which verdicts are kept then. It stands on
//! `cr_claims` and `cr_core`, on `cr_cursor`, whose traits it is generic over, on `cr_outside` and `cr_tokens`, and on `lru`, which
//! holds the verdicts.
#![tactic(auto)]

mod bench;
mod crew;
mod ending;
mod epoch;
mod job;
mod lending;
mod looker;
mod measuring;
mod remembered;
mod trial;
mod verdict;
mod verdicts;
mod worker;

pub use bench::Bench;
pub use crew::Worker;
pub use job::{EpochEnd, Job};
pub use looker::Looker;
pub use measuring::{Measured, measure, read_and_measure};
pub use verdict::Verdict;
pub use verdicts::Verdicts;
