//! The tests of `cr_main_words`, `cr_around`, `cr_explain` and `cr_report`, by public names alone.
//!
//! They stand apart from those of whole runs, so that they need nothing of what a run is made of. It promises nothing, and stands on
//! `cr_main_words`, on `cr_outside`, whose `Test` is a part of its values, on `cr_explain`, which says what is wrong with refused words and
//! files, and on `cr_around` and `cr_report`, which have what is said before a run and behind it.
#![tactic(auto)]

#[cfg(test)]
mod around;
#[cfg(test)]
mod explanations;
#[cfg(test)]
mod numbers;
#[cfg(test)]
mod reports;
#[cfg(test)]
mod requests;
#[cfg(test)]
mod words;
