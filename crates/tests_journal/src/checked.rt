// A log that is checked in memory.
use cr_main_replay::replay_programs;
use cr_outside::{MemFiles, MemSink};
use std::alloc::{AllocError, Global};
use std::process::Abort;

fn push_text(bytes: &mut Vec<u8>, text: &str) -> Result<(), AllocError> {
    for c in text.chars() {
        match c {
            '∅' => {}
            '␊' => bytes.push(b'\n')?,
            '\0'..='\x7f' => bytes.push(c as u8)?,
            _ => bytes.push(b'?')?,
        }
    }
    Ok(())
}

/// The bytes of a text, in which `␊` stands for LF, and `∅` for nothing.
pub(crate) fn bytes_of(alloc: Global, text: &str) -> Result<Vec<u8>, AllocError> {
    let mut bytes = Vec::new(alloc);
    push_text(&mut bytes, text)?;
    Ok(bytes)
}

/// The text so many times.
pub(crate) fn repeated(alloc: Global, times: u64, text: &str) -> Result<Vec<u8>, AllocError> {
    let mut bytes = Vec::new(alloc);
    for _ in 0..times {
        push_text(&mut bytes, text)?;
    }
    Ok(bytes)
}

fn enabled_of(letters: &str) -> [bool; 12] {
    [
        letters.contains('l'),
        letters.contains('t'),
        letters.contains('b'),
        letters.contains('u'),
        letters.contains('s'),
        letters.contains('c'),
        letters.contains('i'),
        letters.contains('p'),
        letters.contains('r'),
        letters.contains('f'),
        letters.contains('v'),
        letters.contains('o'),
    ]
}

/// The status of a replay of the log `t.log` for the file `t.c`. It tells nothing else of what is ensured, which no test needs.
pub(crate) fn status_of(
    alloc: Global,
    steps: u64,
    letters: &str,
    files: &mut MemFiles,
    out: &mut MemSink,
) -> u8 {
    replay_programs(
        alloc,
        steps,
        enabled_of(letters),
        "t.log",
        "t.c",
        files,
        out,
    )
}

/// One more file.
pub(crate) fn push_file(
    alloc: Global,
    pairs: &mut Vec<(String, Vec<u8>)>,
    name: &str,
    bytes: Vec<u8>,
) -> Result<(), AllocError> {
    let name = String::from_str(alloc, name)?;
    pairs.push((name, bytes))?;
    Ok(())
}

fn files_of(alloc: Global, copy: &[u8], log: &[u8], file: &[u8]) -> Result<MemFiles, AllocError> {
    let mut pairs = Vec::new(alloc);
    push_file(alloc, &mut pairs, "t.c.orig", copy.to_vec(alloc)?)?;
    push_file(alloc, &mut pairs, "t.log", log.to_vec(alloc)?)?;
    push_file(alloc, &mut pairs, "t.c", file.to_vec(alloc)?)?;
    Ok(MemFiles::new(pairs, Vec::new(alloc)))
}

/// What is put about these three files, if it comes with its status.
pub(crate) fn line_of(
    alloc: Global,
    steps: u64,
    letters: &str,
    copy: &[u8],
    log: &[u8],
    file: &[u8],
) -> Result<String, AllocError> {
    let mut files = files_of(alloc, copy, log, file)?;
    let mut out = MemSink::new(alloc, Vec::new(alloc));
    let status = status_of(alloc, steps, letters, &mut files, &mut out);
    told(alloc, status, out.bytes())
}

fn told(alloc: Global, status: u8, put: &[u8]) -> Result<String, AllocError> {
    let line = std::str::from_utf8(put).unwrap_or("no text");
    if status == status_in(line) {
        String::from_str(alloc, line.trim_end())
    } else {
        format!(in alloc; "{status} {line}")
    }
}

// The status that comes with a line.
fn status_in(line: &str) -> u8 {
    if line.starts_with("t.c replay yes ") {
        0
    } else if line.starts_with("creduce: replay: line ") {
        14
    } else {
        5
    }
}

/// That this is put about these three files.
pub(crate) fn expect_line(
    rt: &impl Abort,
    alloc: Global,
    wanted: &str,
    copy: &[u8],
    log: &[u8],
    file: &[u8],
) -> Result<(), AllocError> {
    let found = line_of(alloc, 1_000_000, "ltbusciprf", copy, log, file)?;
    assert!(rt; found.as_str() == wanted, "{wanted}: {found}");
    Ok(())
}
