// A line of a file, as it is shown.
use std::alloc::{AllocError, Global};
use std::fmt::{self, Display, Formatter, Write};

/// Of a long line so many bytes are shown, and at most so many in front of the fault.
const SHOWN: usize = 150;

const IN_FRONT: usize = 100;

/// A place as a person counts: its line and its byte there, both from 1.
#[derive(Clone, Copy, Debug, PartialEq, Eq)]
pub struct Position {
    pub line: usize,
    pub column: usize,
}

impl Display for Position {
    fn fmt<W: Write>(&self, f: &mut Formatter<W>) -> fmt::Result {
        write!(f, "line {}, column {}", self.line, self.column)
    }
}

/// Where this byte of a file stands.
pub fn position_of(file: &[u8], at: usize) -> Position {
    let mut position = Position { line: 1, column: 1 };
    for byte in file.iter().take(at) {
        if *byte == b'\n' {
            position.line = position.line.saturating_add(1);
            position.column = 1;
        } else {
            position.column = position.column.saturating_add(1);
        }
    }
    position
}

/// The line with this number, from 1, and a mark below the byte `fault` where it stands in it. What controls a terminal is shown as a
/// question mark.
pub fn push_line(
    alloc: Global,
    text: &mut String,
    name: &str,
    file: &[u8],
    line: u64,
    fault: Option<usize>,
) -> Result<(), AllocError> {
    let Some((start, bytes)) = line_at(file, line) else {
        return Ok(());
    };
    let front = in_line(start, bytes.len(), fault);
    let cut = front.unwrap_or(0).saturating_sub(IN_FRONT);
    let end = bytes.len().min(cut.saturating_add(SHOWN));
    let Some(shown) = bytes.get(cut..end) else {
        return Ok(());
    };
    let before = if cut > 0 { ".. " } else { "" };
    let behind = if end < bytes.len() { " .." } else { "" };
    write!(text, "Line {line} of {name} is\n    {before}")?;
    push_plain(alloc, text, shown)?;
    write!(text, "{behind}\n")?;
    match front {
        Some(front) => push_mark(alloc, text, before, bytes.get(cut..front)),
        None => Ok(()),
    }
}

// How many bytes of a line stand in front of the fault, where it is in that line.
fn in_line(start: usize, length: usize, fault: Option<usize>) -> Option<usize> {
    let front = fault?.checked_sub(start)?;
    if front < length { Some(front) } else { None }
}

fn push_plain(alloc: Global, text: &mut String, bytes: &[u8]) -> Result<(), AllocError> {
    for c in String::from_utf8_lossy(alloc, bytes)?.chars() {
        text.push(if c.is_control() && c != '\t' { '?' } else { c })?;
    }
    Ok(())
}

// A mark below what stands behind these bytes.
fn push_mark(
    alloc: Global,
    text: &mut String,
    before: &str,
    bytes: Option<&[u8]>,
) -> Result<(), AllocError> {
    let Some(bytes) = bytes else {
        return Ok(());
    };
    text.push_str("    ")?;
    for _ in before.chars() {
        text.push(' ')?;
    }
    for c in String::from_utf8_lossy(alloc, bytes)?.chars() {
        text.push(if c == '\t' { '\t' } else { ' ' })?;
    }
    text.push_str("^\n")
}

// Where a line begins, and its bytes without the end of the line.
fn line_at(file: &[u8], line: u64) -> Option<(usize, &[u8])> {
    let mut start: usize = 0;
    let mut number: u64 = 0;
    for bytes in file.split(|b| *b == b'\n') {
        number = number.saturating_add(1);
        if number == line {
            return Some((start, bytes));
        }
        start = start.saturating_add(bytes.len()).saturating_add(1);
    }
    None
}
