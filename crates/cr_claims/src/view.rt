use cr_core::Entry;
use cr_rows::Row;

/// What a pass knows. No value of it is made: contracts alone see it.
pub struct View {
    /// How many positions the epoch has.
    pub len: u64,
    /// The pass's own entries, the last claim last.
    pub own: Row<Entry>,
    /// The lists that it joined, each apart, the last joined first.
    pub joined: Row<Row<Entry>>,
    /// The least value of the word `least` that it has read, at first that word's first value.
    pub read: u64,
    /// How often it has looked.
    pub looks: u64,
    /// Whether it has left.
    pub left: bool,
    /// Whether it is the pass that `open` gave.
    pub keeper: bool,
    /// Whether it was joined into another.
    pub spent: bool,
    /// How many passes were split from it.
    pub splits: u64,
}
