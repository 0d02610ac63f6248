// Why a call on a place or a shelf was refused.
use std::alloc::AllocError;
use thiserror::Error;

/// Why a place or a shelf was not changed as it was asked to be. What then stands there isn't known.
#[derive(Clone, Copy, Debug, PartialEq, Eq, Drop, Error)]
pub enum PlaceFault {
    #[error("the system refused it")]
    Failed,
    #[error("no memory is left")]
    NoMemory,
}

impl From<AllocError> for PlaceFault {
    fn from(_: AllocError) -> PlaceFault {
        PlaceFault::NoMemory
    }
}
