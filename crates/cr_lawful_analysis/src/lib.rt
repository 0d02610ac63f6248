//! What is read of a file, once, for all passes: its tokens, and where it parses, its names are known and it breaks no constraint, its unit
//! with what its names stand for and the structures whose members it names.
//!
//! Whatever the passes list of a file comes from one `Analysis`, so that no pass reads the file again. It promises that an analysis is the
//! file's, and that a file is read in one way at most. It stands on `cr_tokens`, `cr_syntax`, the parsers `cr_exprs_descent` and `cr_decls`,
//! `cr_syntax_machine` for its laws, `cr_syntax_order`, `cr_scopes_events`, `cr_scopes`, `cr_rows`, and on the whole check `cr_check` with the operators, the
//! rules, the types and the typing by which it is stated.
#![tactic(auto)]

mod analysis;
mod last_read;
mod laws;
mod members;

pub use analysis::{Analysis, analyse};
pub use last_read::LastRead;
pub use laws::read_once;
pub use members::structures_of;
