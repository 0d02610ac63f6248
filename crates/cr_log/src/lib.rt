//! The log of a reduction and its summary, as texts. `log_text` writes one line for each accepted variant and a last line
//! on the end, and `summary_text` the one line that a run prints; their contracts are the texts, byte by byte. `read_log`
//! reads a log back: it answers the log exactly where the text is one, and else names the first line that isn't in the
//! form. Stands on `cr_reduce`.
#![tactic(auto)]

mod laws;
mod line;
mod number;
mod reader;
mod text;

pub use laws::{a_log_text_is_a_log, a_text_is_read_in_one_way};
pub use reader::{Log, LogFault, read_log};
pub use text::{log_text, summary_text};
