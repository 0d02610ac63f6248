//! Workers that stay for a whole reduction: what goes between them and their caller, and what they do.
//!
//! Orders, each a run of positions of a file, go through one ruled channel, and replies come back through another. The rules are that
//! each order is one of positions of its file's offer, and that each reply says what is so. Both are about the passes, the law, the
//! question and the judges of one reduction, which the channels' types carry as a parameter, `Subject`. A worker goes over the run: it
//! makes each variant, measures it, and has the law rule on it where it is smaller, up to the first that is lawful too. It says so, asks
//! the question about that one, and replies.
//!
//! The crate promises that no reply is sent but a true one, and what becomes of the judge. It stands on `cr_reduce`'s definitions,
//! `cr_cursor`, `cr_outside`, `cr_pool` and `crossbeam_channel`.
#![tactic(auto)]

mod channels;
mod hint;
mod memory;
mod orders;
mod task;
mod trial;
mod work;

pub use channels::{
    Fit, Lines, Seat, True, another_seat, next_order, next_reply, open_order, send_order,
    send_reply, stop_workers,
};
pub use hint::{Hint, Watch};
pub use memory::Memory;
pub use orders::{Order, Place, Reply, Shared, Subject, Trial};
pub use task::Task;
pub use trial::{Tried, Weighed, ask, make_variant, try_at, weigh};
pub use work::{Word, answer, serve};
