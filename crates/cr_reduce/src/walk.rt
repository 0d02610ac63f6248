// Where the walk of a reduction stands.
use crate::end::Accepted;

/// Where the walk stands.
#[derive(Drop)]
pub struct Walk<T> {
    pub file: Vec<u8>,
    pub size: u64,
    /// The index of the file.
    pub prep: T,
    /// How many variants the file has.
    pub count: u64,
    /// The next position.
    pub position: u64,
    /// Whether this round accepted something.
    pub changed: bool,
    pub accepted: Vec<Accepted>,
    /// How many positions were looked at.
    pub turns: u64,
}
