// Brackets and their partners.
ghost use Rattle.std.specs.Prelude.{IfOk, MatchOption};
ghost use Rattle.pass_text.specs.Nesting.{Nests, NestsNot};

use crate::Pair;
use crate::reading::Reading;
use std::alloc::{AllocError, Global};

/// The pairs of brackets among signs, in the order of the opening ones; none where some bracket has no partner. A sign is one byte a token: that
/// of a bracket, or any other for a token that is none. The error is want of memory, which is answered too at more than 4,294,967,295 signs.
pub fn partners(alloc: Global, signs: &[u8]) -> Result<Option<Vec<Pair>>, AllocError>
    ensures { IfOk result (λ found. MatchOption found (NestsNot signs.now) (λ pairs. Nests 0 signs.now pairs.items)) }
{
    let count = u32::try_from(signs.len()).map_err(|_| AllocError)?;
    let mut reading = Reading::new(alloc);
    for at in (0..count).rev() {
        if !reading.read(at, signs[at as usize])? {
            return Ok(None);
        }
    }
    Ok(reading.end())
}
