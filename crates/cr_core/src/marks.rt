/// What a trial that isn't rejected came to.
#[derive(Clone, Copy, Debug, Drop, PartialEq, Eq)]
pub enum HitKind {
    /// The test said yes.
    Yes,
    /// The test couldn't be put.
    Failed,
    /// Memory was wanting.
    Starved,
}

/// How a claimed position stands.
#[derive(Clone, Copy, Debug, Drop, PartialEq, Eq)]
pub enum Mark {
    /// Its trial isn't over.
    Open,
    /// It was tried and rejected.
    No,
    /// It was tried, and not rejected.
    Hit(HitKind),
    /// It was given up: it is past the end, or a lower position is a hit.
    Skipped,
}

/// A position that a worker claimed.
#[derive(Clone, Copy, Debug, Drop, PartialEq, Eq)]
pub struct Entry {
    /// Counted from 0, the first position of the epoch.
    pub position: u64,
    pub mark: Mark,
}
