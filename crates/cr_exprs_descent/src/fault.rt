ghost use Rattle.std.specs.Prelude.{◌≡◌};
ghost use Rattle.cr_exprs_descent.specs.declared.fault.ParseFault.TheVariants.{NoMemory};

use std::alloc::{AllocError, AllocFailed};
use thiserror::Error;

/// Why tokens are refused. A number is that of a token, from 0.
#[derive(Clone, Copy, Debug, PartialEq, Eq, Error)]
pub enum ParseFault {
    #[error("out of memory")]
    NoMemory,
    #[error("token {0} fits nowhere")]
    Unexpected(u32),
    #[error("the tokens end too early")]
    Ended,
    #[error("more than 128 levels at token {0}")]
    TooDeep(u32),
    #[error("outside the subset at token {0}, by row {1}")]
    OutsideSubset(u32, u8),
}

impl From<AllocError> for ParseFault {
    ghost from_gives = { λ _ fault. fault ≡ NoMemory };

    fn from(_: AllocError) -> ParseFault {
        ParseFault::NoMemory
    }
}

impl<T: Drop> From<AllocFailed<T>> for ParseFault {
    ghost from_gives = { λ _ fault. fault ≡ NoMemory };

    fn from(_: AllocFailed<T>) -> ParseFault {
        ParseFault::NoMemory
    }
}
