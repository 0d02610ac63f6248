// What is found of the outside before a run begins.
use crate::journal_words::JournalWords;
use std::fmt::{self, Display, Formatter};

/// What stands at a path, behind links.
#[derive(Clone, Copy, Debug, PartialEq, Eq)]
pub enum Kind {
    Plain,
    Folder,
    Pipe,
    Socket,
    Device,
}

impl Display for Kind {
    fn fmt<W: fmt::Write>(&self, f: &mut Formatter<W>) -> fmt::Result {
        f.write_str(match self {
            Kind::Plain => "a plain file",
            Kind::Folder => "a folder",
            Kind::Pipe => "a pipe",
            Kind::Socket => "a socket",
            Kind::Device => "a device",
        })
    }
}

/// A path where a run writes.
#[derive(Clone, Copy, Debug, PartialEq, Eq)]
pub struct Site {
    /// None where nothing stands there.
    pub kind: Option<Kind>,
    /// Whether it can be opened for writing.
    pub is_writable: bool,
}

/// What the names of the files beside the reduced one end with.
#[derive(Clone, Copy, Debug, PartialEq, Eq)]
pub enum Ending {
    Copy,
    Log,
    Best,
    Journal,
    JournalWords,
}

impl Ending {
    /// The end of the name.
    pub fn text(self) -> &'static str {
        match self {
            Ending::Copy => ".orig",
            Ending::Log => ".log",
            Ending::Best => ".best",
            Ending::Journal => ".journal",
            Ending::JournalWords => ".journal-words",
        }
    }
}

/// What a journal that a run is to go on with was begun with.
#[derive(Debug, Drop)]
pub enum Begun {
    /// The run goes on with none, or none was begun.
    Nothing,
    /// No words stand beside it.
    Unknown,
    /// These words stand beside it.
    With(JournalWords),
}

/// What is found before a run begins.
#[derive(Debug, Drop)]
pub struct Facts {
    /// The file.
    pub file: Site,
    /// Whether a new file can be made beside it, or none is wanted, since the file isn't there.
    pub takes_new: bool,
    pub copy: Site,
    pub log: Site,
    pub best: Site,
    /// Of the journal and its words only what a run with a journal finds.
    pub journal: Site,
    pub journal_words: Site,
    /// The most bytes of a file, where there is a limit.
    pub most: Option<u64>,
    pub begun: Begun,
    /// The checksums of the file and of its copy, where the run is to go on with a journal.
    pub file_sum: Option<String>,
    pub copy_sum: Option<String>,
}
