//! The words of the command line: `words` reads them, and answers what they ask for, or that they are in no form, exactly
//! as `specs/Giving.antt` has it. `request_of` takes the flags out first, and knows `--replay` beside a reduction, as
//! `specs/Requests.antt` has it. The kit's `clap` splits words into options and positional words; how often each may come
//! and what its value may be is decided here. Whether what is asked for can be done is the caller's matter. Stands on
//! `cr_outside`, whose `Test` is a part of the settings.
#![tactic(auto)]

mod command;
mod flags;
mod laws;
mod letters;
mod modes;
mod numbers;
mod replay;
mod request;
mod settings;
mod source;

pub use command::WordFault;
pub use laws::{
    words_are_read_in_one_way, words_ask_for_one_thing, words_without_flag_are_read_as_they_stand,
};
pub use modes::{Engine, Modes};
pub use replay::ReplaySettings;
pub use request::{Request, request_of};
pub use settings::{Settings, words};
pub use source::Source;
