// The lines of refusals.
use crate::facts::{Begun, Ending, Facts};
use crate::quoting::Plain;
use crate::refusal::Refusal;
use std::fmt::{self, Display, Formatter, Write};

/// A refusal with what it is said of: the file, the facts and the test that was asked for.
#[derive(Clone, Copy)]
pub struct Saying<'a> {
    pub refusal: Refusal,
    pub name: &'a str,
    pub facts: &'a Facts,
    pub test: &'a str,
}

/// The folder of a path.
fn folder_of(name: &str) -> &str {
    match name.rsplit_once('/') {
        None => "this folder",
        Some(("", _)) => "/",
        Some((folder, _)) => folder,
    }
}

impl Display for Saying<'_> {
    fn fmt<W: Write>(&self, f: &mut Formatter<W>) -> fmt::Result {
        let name = Plain(self.name);
        f.write_str("creduce: ")?;
        match self.refusal {
            Refusal::NoFile(kind) => write!(f, "{name} is {kind}, and no file"),
            Refusal::Unwritable => write!(
                f,
                "{name} can't be written by you, and the result goes there: chmod u+w '{name}'"
            ),
            Refusal::NoNew => write!(
                f,
                "no file can be made in {}, where {name}.orig and {name}.log are to stand",
                Plain(folder_of(self.name))
            ),
            Refusal::NoPlace(ending, kind) => write!(
                f,
                "{name}{} is {kind}, and {} to stand there: move it away",
                ending.text(),
                what(ending)
            ),
            Refusal::Short(most) => write!(
                f,
                "a file may have at most {most} bytes here (ulimit -f), and up to 16777216 are wanted"
            ),
            Refusal::Unknown => write!(
                f,
                "{name}.journal was begun by no run of creduce ({name}.journal-words isn't there): move it away, and begin with --journal"
            ),
            Refusal::OtherTest => match &self.facts.begun {
                Begun::With(words) => write!(
                    f,
                    "{name}.journal was begun with TEST '{}', and not '{}'",
                    Plain(words.test.as_str()),
                    Plain(self.test)
                ),
                Begun::Nothing | Begun::Unknown => write!(
                    f,
                    "{name}.journal was begun with another TEST"
                ),
            },
            Refusal::Changed => write!(
                f,
                "changed since the journal: {name}\nTo go on without the change: cp {name}.orig {name}, then the same words. To reduce the changed file: move {name}.journal away, and begin with --journal."
            ),
            Refusal::OtherOrder => match &self.facts.begun {
                Begun::With(words) if !words.any_order => write!(
                    f,
                    "{name}.journal was begun without --any-order"
                ),
                _ => write!(f, "{name}.journal was begun with --any-order"),
            },
            Refusal::OtherLabel => match reached(self.facts) {
                Some(label) => write!(
                    f,
                    "{name}.journal was begun with --reached={}",
                    Plain(label)
                ),
                None => write!(f, "{name}.journal was begun without --reached"),
            },
        }
    }
}

// The label that the journal was begun with.
fn reached(facts: &Facts) -> Option<&str> {
    match &facts.begun {
        Begun::With(words) => Some(words.reached.as_ref()?.as_str()),
        Begun::Nothing | Begun::Unknown => None,
    }
}

// What is to stand at a name that ends so.
fn what(ending: Ending) -> &'static str {
    match ending {
        Ending::Copy => "the copy is",
        Ending::Log => "the log is",
        Ending::Best => "the smallest variant is",
        Ending::Journal => "the journal is",
        Ending::JournalWords => "the journal's words are",
    }
}
