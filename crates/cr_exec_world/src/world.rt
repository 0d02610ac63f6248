use crate::names::Names;
use cr_memory::Store;

/// What a run works on.
#[derive(Drop)]
pub struct World {
    pub store: Store,
    /// The bytes printed so far.
    pub output: Vec<u8>,
    /// The steps that are left.
    pub steps: u64,
    /// How many calls run.
    pub depth: u64,
    pub names: Names,
}
