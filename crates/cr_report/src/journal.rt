// What stands in a journal, read from its bytes alone, so that it may be one that a reduction still writes to.
use crate::fault::ReportFault;
use cr_cursor::{Cursor, PASSES};
use cr_reduce::Accepted;
use std::alloc::Global;

/// How long a record is.
const RECORD: usize = 32;

/// What stands in a journal: the size at first, and the rows.
#[derive(Debug, Drop)]
pub struct Kept {
    pub first: u64,
    pub accepted: Vec<Accepted>,
}

/// Reads a journal. A record stands where its gate, the first byte, is 1 and the next one's is there; the first is the header.
pub fn read_kept(alloc: Global, bytes: &[u8]) -> Result<Kept, ReportFault> {
    let mut records = bytes
        .chunks_exact(RECORD)
        .take(bytes.len().saturating_sub(1) / RECORD);
    let first = match records.next() {
        Some([1, header @ ..]) => first_size(header).ok_or(ReportFault::Record(0))?,
        _ => return Err(ReportFault::NoHeader),
    };
    let mut accepted = Vec::new(alloc);
    for record in records {
        let [1, row @ ..] = record else {
            break;
        };
        let Some(one) = row_of(row) else {
            return Err(ReportFault::Record((accepted.len() as u64).saturating_add(1)));
        };
        if accepted.push(one).is_err() {
            return Err(ReportFault::NoMemory);
        }
    }
    Ok(Kept { first, accepted })
}

// The last number of a header: passes, steps, limit, the size at first, and five zeros.
fn first_size(header: &[u8]) -> Option<u64> {
    let [_, _, rest @ ..] = header else {
        return None;
    };
    let (_, rest) = take_number(rest)?;
    let (_, rest) = take_number(rest)?;
    let (first, rest) = take_number(rest)?;
    if is_ending(rest) { Some(first) } else { None }
}

// Pass, level, index, size, turn, and five zeros.
fn row_of(row: &[u8]) -> Option<Accepted> {
    let [pass, level, rest @ ..] = row else {
        return None;
    };
    let (index, rest) = take_number(rest)?;
    let (size, rest) = take_number(rest)?;
    let (turn, rest) = take_number(rest)?;
    if *pass >= PASSES || !is_ending(rest) {
        return None;
    }
    Some(Accepted {
        at: Cursor {
            pass: *pass,
            level: *level,
            index,
        },
        size,
        turn,
    })
}

fn is_ending(bytes: &[u8]) -> bool {
    matches!(bytes, [0, 0, 0, 0, 0])
}

// Takes a number of eight bytes off the front, the lowest first.
fn take_number(bytes: &[u8]) -> Option<(u64, &[u8])> {
    let (number, rest) = bytes.split_first_chunk::<8>()?;
    Some((u64::from_le_bytes(*number), rest))
}
