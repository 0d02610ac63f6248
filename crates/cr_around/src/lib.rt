//! What stands around a run: folders with files and files that are replaced, as two traits, and what is said before the first test, as functions
//! of what was found. `hold_alone` leaves a folder with one file alone, and `replace` keeps a file whole at any moment, a cut of the power
//! included, where the place tells what stands where, and the shelf its steps; beside them stands a place in memory that tells all.
//! `refusal_of` gives the first row of the rows of refusals that holds of the facts; the words beside a journal, what the lock of the trial
//! folders says, words as a shell takes them, and where the program's documents stand, are texts and back. Stands on std.
#![tactic(auto)]

mod facts;
mod fault;
mod finding;
mod holder;
mod holding;
mod journal_words;
mod lines;
mod memory;
mod program;
mod quoting;
mod refusal;
mod replacing;

pub use facts::{Begun, Ending, Facts, Kind, Site};
pub use fault::PlaceFault;
pub use finding::test_word;
pub use holder::{folders_in, holder_in, holder_text};
pub use holding::{Place, hold_alone};
pub use journal_words::{JournalWords, words_in, words_text};
pub use lines::Saying;
pub use memory::MemPlace;
pub use program::{documents_of, recorded};
pub use quoting::{Plain, quoted};
pub use refusal::{Refusal, refusal_of};
pub use replacing::{Shelf, replace};
