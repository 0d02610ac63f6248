//! The speculative core: many workers try the positions of an epoch at once, and what is kept is what one worker, trying them in
//! order, would have kept.
//!
//! A position is handed out once, by the number `next`; what its trial came to is a mark in the worker's own list; and the least
//! hit so far is the number `least`. The crate is this state machine alone, with no thread in it. It promises that after any list
//! of events the state is sound, and that in a finished state the least hit is the first position in order that wasn't rejected.
//! It stands on cr_rows.
#![tactic(auto)]

mod events;
mod laws;
mod machine;
mod marks;
mod settling;

pub use events::{Event, First, Settle};
pub use laws::{
    a_new_entry_is_last, a_run_has_one_end, counts_are_entries, each_entry_has_one_mark,
    each_list_is_in_order, few_are_tried, marks_move_nothing, ordered_commit, the_bound_follows,
    the_least_hit_is_first,
};
pub use machine::{Core, NoMemory, hit_of, run, word_of};
pub use marks::{Entry, HitKind, Mark};
