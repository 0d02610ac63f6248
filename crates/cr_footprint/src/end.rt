ghost use Rattle.std.specs.Prelude.{◌≡◌};
ghost use Rattle.cr_footprint.specs.declared.end.FootEnd.TheVariants.{NoMemory};

use std::alloc::AllocError;

/// Why two evaluations have no footprint together: they conflict, and this is the least object and
/// cell on which they do, or memory is wanting.
#[derive(Clone, Copy, Debug, PartialEq, Eq)]
pub enum FootEnd {
    Conflict(u32, u32),
    NoMemory,
}

impl From<AllocError> for FootEnd {
    ghost from_gives = { λ _ end. end ≡ NoMemory };

    fn from(_: AllocError) -> FootEnd {
        FootEnd::NoMemory
    }
}
