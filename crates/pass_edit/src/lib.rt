//! What every pass of variants is made of: edits of a file's bytes.
//!
//! An edit is a list of changes. A change takes a range of bytes away and puts a text there, and where two letters, digits or underscores
//! would then meet that did not before, one space is put between them, so that no two words become one. A text is a constant, bytes, or a form
//! that is spelled anew, with holes that runs of tokens fill. A pass lists its edits once for a
//! file, by levels (a `Menu`); `width` and `variant` then serve every pass, and make a variant without memory wherever the buffer has room.
//! It stands on `cr_rows` and `cr_tokens`.
#![tactic(auto)]

mod change;
mod edits;
mod fill;
mod form;
mod glue;
mod laws;
mod menu;
mod range;
mod space;
mod write;

pub use change::{Change, Text};
pub use edits::Edits;
pub use form::{Bit, Kept, Run, Sign};
pub use laws::{
    an_edit_of_nothing_is_the_file, gluing_is_associative, holes_are_their_runs,
    lines_need_no_seam, nested_changes_go_with_the_outer_one,
};
pub use menu::{Menu, variant, width};
pub use range::part;
pub use space::needs_space;
pub use write::apply;
