// What an epoch tries, and how it ends.
use cr_cursor::{Law, Passes};
use cr_outside::Question;

/// The variants of a file that an epoch tries, and by what.
#[derive(Drop)]
pub struct Job<'a, P: Passes, L: Law, Q: Question> {
    pub passes: &'a P,
    /// The index of the file.
    pub prep: &'a P::Prep,
    pub law: &'a L,
    pub question: &'a Q,
    /// The name under which a test sees a variant.
    pub name: &'a str,
    pub file: &'a [u8],
    /// The file's size.
    pub size: u64,
    /// The first position.
    pub start: u64,
    /// How many positions, 1 to 4,096.
    pub len: u64,
    /// How many of the bench's workers, from the first on.
    pub workers: u32,
}

/// How an epoch ends. Positions are those of the file's variants.
#[derive(PartialEq, Eq, Drop)]
pub enum EpochEnd {
    /// Every variant was rejected; how many there were.
    NoneOf(u64),
    /// The first position that wasn't rejected, whose variant was answered Yes, and the variant.
    Found(u64, Vec<u8>),
    /// The first position that wasn't rejected, and the worker whose judge failed on it.
    Fault(u64, u32),
    NoMemory,
}
