//! The tests of what is kept of a reduction, by public names alone: of the journal (`cr_outside_disk`, `cr_journal_records`,
//! `cr_journal_rows`, `cr_journal` and the disk of `creduce_system`), of the check of logs (`cr_main_replay`, with the passes and the law
//! of programs), and of the other adapters of `creduce_system`. It promises nothing, and stands on the crates that it tests and on what their values are made of.
#![tactic(auto)]

#[cfg(test)]
mod adapters;
#[cfg(test)]
mod checked;
#[cfg(test)]
mod forged;
#[cfg(test)]
mod images;
#[cfg(test)]
mod real;
#[cfg(test)]
mod reductions;
#[cfg(test)]
mod refusals;
#[cfg(test)]
mod replays;
#[cfg(test)]
mod rows;
#[cfg(test)]
mod stops;
#[cfg(test)]
mod texts;
