//! The text of a syntax tree: its tokens in order, with one space between two of them exactly where reading the two side by
//! side wouldn't give these two tokens. `print` gives the text of a unit, `print_expr` that of one node. The choice of the
//! space is stated by the lexical definition itself (`Prints` in `specs/Text.antt`), and the quick test of the bytes at the
//! seam, which is that of `pass_edit`, is proved to be it. `laws` says what a printed text is worth: read again it has the
//! same kinds and spellings, a unit's text is a unit with the same tree, and no text is longer than the file. It stands on
//! the tokens, the tree, the rows and the edits.
#![tactic(auto)]

mod laws;
mod seam;
mod text;

pub use laws::{
    dots_have_names, joined_is_printed, neighbours_stay_apart, printed_is_no_longer,
    printed_is_read, printed_is_unit, printed_part_is_read, prints_one_text, three_dots_are_lost,
};
pub use text::{NoMemory, print, print_expr};
