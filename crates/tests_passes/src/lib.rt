//! The tests of `pass_list` with `cr_lawful_analysis`, `pass_exprs`, `pass_inline`, `pass_names`, `pass_params` and `pass_stmts`: files with their variants.
//!
//! They stand above these crates, so that none of them proves its functions once more for its tests. It promises nothing, and stands on
//! `pass_list`, `cr_lawful_analysis` and `cr_cursor`.
#![tactic(auto)]

#[cfg(test)]
mod left;
#[cfg(test)]
mod variants;
