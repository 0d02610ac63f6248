//! The greedy reduction by workers that stay for the whole of it.
//!
//! `reduce_standing` starts a thread for each judge, once, where there are two judges or more and the question asks them. The caller sends
//! orders, each a run of positions of a file, through a channel; the workers try the variants there and reply through another. Each
//! channel has a rule: that each order is one of positions of its file's offer, and that each reply says what is so. Both rules are about
//! the passes, the law, the question and the judges of this call, which the types of the channels carry as a parameter that the call picks.
//!
//! While a test runs the caller guesses its answer, yes or no as the last ones were, and orders what comes behind it: the next positions of
//! the same file, or those of the variant as the file. A reply says what it says of its own file, whatever was guessed, so it counts once
//! that file is at hand, and where it never is, it is dropped. The walk goes by what is known of its own file alone: a wrong guess costs time. A
//! position that the workers couldn't decide is tried by the first judge once they were joined, so no failed test but its own ends a reduction.
//!
//! The crate promises the one-thread first-accepted reduction of `cr_reduce`, where the answers are told, and for any judge a chain of
//! accepted variants. It stands on `cr_standing_workers`, which has the channels and what a worker does, on `cr_reduce`'s definitions,
//! `cr_cursor`, `cr_outside` and `crossbeam_channel`.
#![tactic(auto)]

mod chain;
mod crew;
mod deciding;
mod ordering;
mod policy;
mod running;
mod settling;
mod standing;
mod walk;
mod walking;

pub use standing::reduce_standing;
