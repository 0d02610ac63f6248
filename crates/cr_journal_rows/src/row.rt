// The records of rows.
ghost use Rattle.std.specs.Prelude.{◌≡◌, ◌≤◌, ◌++◌, ◌↔◌, ◌<◌, All, length, IfOk, IfSome, IsTrue, None, map};
ghost use Rattle.cr_journal_rows.specs.Forms.{HasRowForm, IsRowBody, ReadsRows, ending, row_body};

use crate::JournalFault;
use crate::number::take_u64;
use cr_cursor::{Cursor, PASSES};
use cr_reduce::Accepted;
use std::alloc::{AllocError, Global};

/// What each body ends with.
pub const ENDING: [u8; 5] = [0; 5];

/// Whether these bytes are the end of a body.
pub fn is_ending(bytes: &[u8]) -> bool
    ensures { IsTrue result ↔ (bytes.now ≡ ending) }
{
    matches!(bytes, [0, 0, 0, 0, 0])
}

/// The body of the record of a row.
pub fn body_of(alloc: Global, row: &Accepted) -> Result<Vec<u8>, AllocError>
    ensures { IfOk result (λ body. body.items ≡ row_body row.now) }
{
    let mut body = Vec::new(alloc);
    body.push(row.at.pass)?;
    body.push(row.at.level)?;
    body.extend_from_slice(&row.at.index.to_le_bytes())?;
    body.extend_from_slice(&row.size.to_le_bytes())?;
    body.extend_from_slice(&row.turn.to_le_bytes())?;
    body.extend_from_slice(&ENDING)?;
    Ok(body)
}

/// The row of a body.
pub fn read_row(body: &[u8]) -> Option<Accepted>
    ensures row { IfSome result (IsRowBody body.now) }
    ensures none { result ≡ None → length body.now ≡ 31 → HasRowForm body.now → ⊥ }
{
    let [pass, level, rest @ ..] = body else {
        return None;
    };
    let (index, rest) = take_u64(rest)?;
    let (size, rest) = take_u64(rest)?;
    let (turn, rest) = take_u64(rest)?;
    if *pass >= PASSES || !is_ending(rest) {
        return None;
    }
    let at = Cursor {
        pass: *pass,
        level: *level,
        index,
    };
    Some(Accepted { at, size, turn })
}

/// The rows of these bodies, or the first that isn't a row's, the first of all being record 1.
pub fn read_rows(alloc: Global, bodies: &[Vec<u8>]) -> Result<Vec<Accepted>, JournalFault>
    ensures { ReadsRows bodies.now result }
{
    let mut rows = Vec::new(alloc);
    for body in bodies {
        let Some(row) = read_row(body) else {
            return Err(JournalFault::Bad(rows.len() as u64 + 1));
        };
        let Ok(()) = rows.push(row) else {
            return Err(JournalFault::NoMemory);
        };
    }
    Ok(rows)
}
