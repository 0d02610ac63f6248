//! What stops leave of a reduction that keeps a journal, over the one story of its files and of the journal: three conditions under
//! which it can be gone on with, and the laws by which each call keeps them at every moment. No code stands here but what says the laws:
//! a run that keeps a journal stands on it. Stands on `cr_journal_records`, `cr_outside_disk` and `cr_outside`.
#![tactic(auto)]

pub mod laws;
