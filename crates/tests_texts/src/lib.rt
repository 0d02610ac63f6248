//! The tests of `cr_tokens`, `cr_outside`, `cr_printer`, `cr_log`, `pass_edit`, `pass_levels` and `pass_text`, by public names alone.
//!
//! They stand above these crates, so that none of them proves its functions once more for its tests. It promises nothing,
//! and stands on the crates that it tests and on what their values are made of.
#![tactic(auto)]

#[cfg(test)]
mod brackets;
#[cfg(test)]
mod edits;
#[cfg(test)]
mod levels;
#[cfg(test)]
mod log;
#[cfg(test)]
mod outside;
#[cfg(test)]
mod passes;
#[cfg(test)]
mod printer;
#[cfg(test)]
mod rows;
#[cfg(test)]
mod tokens;
