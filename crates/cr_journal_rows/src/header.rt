// The first record.
ghost use Rattle.std.specs.Prelude.{◌≡◌, length, IfOk, IfSome, None};
ghost use Rattle.cr_journal_rows.specs.Forms.{HasEnding, HeaderFits, header_body};

use crate::number::{take_u16, take_u64};
use crate::row::{ENDING, is_ending};
use std::alloc::{AllocError, Global};

/// What a journal is of: the settings of the reduction, and the size of the file that it began with.
#[derive(Clone, Copy, Debug, PartialEq, Eq)]
pub struct Header {
    /// The enabled passes: bit k for pass k, from the lowest.
    pub passes: u16,
    /// The most steps of a run.
    pub steps: u64,
    /// The most positions to look at, 2^64 - 1 where there is no limit.
    pub limit: u64,
    /// The size of the file before the reduction.
    pub size: u64,
}

/// The body of the record of a header.
pub fn body_of(alloc: Global, header: &Header) -> Result<Vec<u8>, AllocError>
    ensures { IfOk result (λ body. body.items ≡ header_body header.now) }
{
    let mut body = Vec::new(alloc);
    body.extend_from_slice(&header.passes.to_le_bytes())?;
    body.extend_from_slice(&header.steps.to_le_bytes())?;
    body.extend_from_slice(&header.limit.to_le_bytes())?;
    body.extend_from_slice(&header.size.to_le_bytes())?;
    body.extend_from_slice(&ENDING)?;
    Ok(body)
}

/// The header of a body.
pub fn read_header(body: &[u8]) -> Option<Header>
    ensures header { IfSome result (λ header. body.now ≡ header_body header) }
    ensures fits { IfSome result HeaderFits }
    ensures none { result ≡ None → length body.now ≡ 31 → HasEnding body.now → ⊥ }
{
    let (passes, rest) = take_u16(body)?;
    let (steps, rest) = take_u64(rest)?;
    let (limit, rest) = take_u64(rest)?;
    let (size, rest) = take_u64(rest)?;
    if !is_ending(rest) {
        return None;
    }
    Some(Header {
        passes,
        steps,
        limit,
        size,
    })
}
