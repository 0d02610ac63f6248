use cr_cursor::Cursor;
use cr_journal_rows::{Header, JournalFault, add, begin, from_disk, recover};
use cr_outside_disk::{Disk, MemDisk};
use cr_reduce::Accepted;
use std::alloc::{AllocError, Global};
use std::process::Abort;

/// The letters of the passes, from pass 0 on.
const LETTERS: &[u8] = b"ltbusciprf";

/// The header of a reduction of 132 bytes by the first pass alone, with no limit.
pub(crate) const HEADER: Header = Header {
    passes: 1,
    steps: 1_000_000,
    limit: u64::MAX,
    size: 132,
};

/// Its one row.
pub(crate) const ROW: Accepted = Accepted {
    at: Cursor {
        pass: 0,
        level: 14,
        index: 0,
    },
    size: 98,
    turn: 16,
};

/// What recovery answers of the header alone, and of both.
pub(crate) const HEADER_TEXT: &str = "passes 1 steps 1000000 limit none size 132";

pub(crate) const BOTH_TEXT: &str = "passes 1 steps 1000000 limit none size 132; l 14 0 98 16";

/// Their journal.
pub(crate) const BOTH: &str = "\
01010040420f0000000000ffffffffffffffff84000000000000000000000000\
01000e0000000000000000620000000000000010000000000000000000000000\
00";

/// A disk with these bytes, which fails at these calls.
pub(crate) fn disk(alloc: Global, bytes: &[u8], fails: &[u64]) -> Result<MemDisk, AllocError> {
    Ok(MemDisk::new(bytes.to_vec(alloc)?, fails.to_vec(alloc)?))
}

fn digit(byte: u8) -> u8 {
    match byte {
        b'0'..=b'9' => byte - b'0',
        b'a'..=b'f' => byte - b'a' + 10,
        _ => 0,
    }
}

/// The bytes that hexadecimal digits spell.
pub(crate) fn bytes_of(alloc: Global, digits: &str) -> Result<Vec<u8>, AllocError> {
    let mut bytes = Vec::new(alloc);
    for pair in digits.as_bytes().chunks_exact(2) {
        if let [high, low] = pair {
            bytes.push((digit(*high) << 4) | digit(*low))?;
        }
    }
    Ok(bytes)
}

fn header_text(alloc: Global, header: &Header) -> Result<String, AllocError> {
    let Header {
        passes,
        steps,
        limit,
        size,
    } = header;
    if *limit == u64::MAX {
        format!(in alloc; "passes {passes} steps {steps} limit none size {size}")
    } else {
        format!(in alloc; "passes {passes} steps {steps} limit {limit} size {size}")
    }
}

fn row_text(alloc: Global, row: &Accepted) -> Result<String, AllocError> {
    let letter = match LETTERS.get(row.at.pass as usize) {
        Some(letter) => *letter as char,
        None => '?',
    };
    let (level, index) = (row.at.level, row.at.index);
    format!(in alloc; "; {letter} {level} {index} {} {}", row.size, row.turn)
}

fn journal_text(alloc: Global, header: &Header, rows: &[Accepted]) -> Result<String, AllocError> {
    let mut text = header_text(alloc, header)?;
    for row in rows {
        let row = row_text(alloc, row)?;
        text.push_str(&row)?;
    }
    Ok(text)
}

/// Recovery's answer as a text.
pub(crate) fn recovered(alloc: Global, disk: &mut MemDisk) -> Result<String, AllocError> {
    let Ok(len) = disk.start(alloc, "f.c.journal") else {
        return String::from_str(alloc, "not started");
    };
    match recover(disk, alloc, len) {
        Ok(None) => String::from_str(alloc, "none"),
        Ok(Some((header, rows))) => journal_text(alloc, &header, &rows),
        Err(JournalFault::Bad(record)) => format!(in alloc; "bad {record}"),
        Err(JournalFault::Disk) => String::from_str(alloc, "disk"),
        Err(_) => String::from_str(alloc, "another fault"),
    }
}

/// Makes the journal of the header and the row.
pub(crate) fn make<D: Disk>(disk: &mut D, alloc: Global) -> Result<(), JournalFault> {
    if let Err(fault) = disk.start(alloc, "f.c.journal") {
        return Err(from_disk(fault));
    }
    begin(disk, alloc, &HEADER)?;
    match add(disk, alloc, 0, &ROW) {
        Ok(()) => Ok(()),
        Err(fault) => Err(from_disk(fault)),
    }
}

/// The one comparison.
pub(crate) fn expect(rt: &impl Abort, found: &[u8], wanted: &[u8], row: &str) {
    assert!(rt; found == wanted, "{row}: {found:?}");
}

/// The cells of a row.
pub(crate) fn cells(row: &str) -> (&str, &str, &str) {
    let (first, rest) = pair(row);
    let (second, third) = pair(rest);
    (first, second, third)
}

fn pair(row: &str) -> (&str, &str) {
    match row.split_once('¦') {
        Some(cells) => cells,
        None => (row, "no second cell"),
    }
}

/// The number that a word spells.
pub(crate) fn number(word: &str) -> u64 {
    word.parse().unwrap_or(999_999)
}

pub(crate) fn byte(word: &str) -> u8 {
    word.parse().unwrap_or(77)
}
