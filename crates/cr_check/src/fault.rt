ghost use Rattle.std.specs.Prelude.{◌≡◌};
ghost use Rattle.cr_check.specs.declared.fault.TypeFault.TheVariants.{NoMemory};

use std::alloc::{AllocError, AllocFailed};
use thiserror::Error;

/// Why a unit is refused whose names are known. A token is told by its number.
#[derive(Clone, Copy, Debug, PartialEq, Eq, Error)]
pub enum TypeFault {
    #[error("out of memory")]
    NoMemory,
    /// A typedef name that is declared again with another type (C11 6.7p3), by its token. It counts as a fault of names.
    #[error("token {0} is declared a second time with another type")]
    Twice(u32),
    /// A constraint, K1 to K43, and the token at which it is broken.
    #[error("constraint K{0} at token {1}")]
    Broken(u8, u32),
}

impl From<AllocError> for TypeFault {
    ghost from_gives = { λ _ fault. fault ≡ NoMemory };

    fn from(_: AllocError) -> TypeFault {
        TypeFault::NoMemory
    }
}

impl<T: Drop> From<AllocFailed<T>> for TypeFault {
    ghost from_gives = { λ _ fault. fault ≡ NoMemory };

    fn from(_: AllocFailed<T>) -> TypeFault {
        TypeFault::NoMemory
    }
}
