ghost use Rattle.std.specs.Prelude.{IfOk, IsTrue};
ghost use Rattle.cr_typed_fit.specs.Fits.{IsFitting};

use crate::extents::{extents_of, has_room};
use cr_typed::Typed;
use std::alloc::{AllocError, Global};

/// Whether the types of a typed unit have the cells and structures that the constraints let them have. The error is want of memory.
pub fn fits(alloc: Global, typed: &Typed) -> Result<bool, AllocError>
    ensures only { IfOk result (λ fit. IsTrue fit → IsFitting typed.now) }
    ensures every { IfOk result (λ fit. IsFitting typed.now → IsTrue fit) }
{
    let extents = extents_of(alloc, &typed.shapes, typed.layouts.as_slice())?;
    Ok(has_room(typed, &extents))
}
