ghost use Rattle.std.specs.Prelude.{◌≡◌};
ghost use Rattle.cr_scopes.specs.declared.fault.NameFault.TheVariants.{NoMemory};

use std::alloc::{AllocError, AllocFailed};
use thiserror::Error;

/// Why the names of a unit are refused. A number is that of a token.
#[derive(Clone, Copy, Debug, PartialEq, Eq, Error)]
pub enum NameFault {
    #[error("out of memory")]
    NoMemory,
    #[error("token {0} names nothing in scope")]
    Unknown(u32),
    #[error("token {0} is declared a second time")]
    Twice(u32),
}

impl From<AllocError> for NameFault {
    ghost from_gives = { λ _ fault. fault ≡ NoMemory };

    fn from(_: AllocError) -> NameFault {
        NameFault::NoMemory
    }
}

impl<T: Drop> From<AllocFailed<T>> for NameFault {
    ghost from_gives = { λ _ fault. fault ≡ NoMemory };

    fn from(_: AllocFailed<T>) -> NameFault {
        NameFault::NoMemory
    }
}
