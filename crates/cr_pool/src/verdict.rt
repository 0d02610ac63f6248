// What a trial finds of a file.

/// What a trial found of a file itself, whatever file it is a variant of.
#[derive(Clone, Copy, Debug, Drop, PartialEq, Eq)]
pub enum Verdict {
    /// The law refuses it.
    Unlawful,
    /// It is lawful, and the question was answered so.
    Yes,
    /// It is lawful, and the question was answered so.
    No,
}
