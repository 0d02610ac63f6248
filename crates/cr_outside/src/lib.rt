//! The outside of the reducer as traits: files, a sink for the program's lines, and judges that run the user's test.
//! Each trait says what its calls mean where the object tells its content, and what holds whatever the outside does:
//! a count of faults that never falls, and a refusal only where that count rose. What is told of files, and of whatever
//! else stands on `Outside`, is one story, call by call. Beside the traits stand the questions that a test asks, and
//! objects in memory that tell all and fail where they are told to. Stands on `cr_tokens`.
#![tactic(auto)]

mod fault_plan;
mod files;
mod has;
mod judge;
mod memory_files;
mod memory_sink;
mod question;
mod script;
mod scripted;
mod sink;
mod story;
mod test;

pub use fault_plan::FaultPlan;
pub use files::{FileFault, Files, NoMemory, ReadAnswer};
pub use has::Has;
pub use judge::{Answer, Judge};
pub use memory_files::MemFiles;
pub use memory_sink::MemSink;
pub use question::Question;
pub use script::Script;
pub use scripted::{Asked, Scripted};
pub use sink::{Sink, SinkFault};
pub use story::{Change, Event, Outcome, Outside};
pub use test::{Test, TestFault};
