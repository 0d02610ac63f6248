// Runs on a file and a sink in memory, and what they come to.
use crate::rehearsed::silent_bench;
use cr_main::{run, run_more};
use cr_outside::{Files, Judge, MemFiles, MemSink, ReadAnswer, Sink};
use cr_outside_disk::MemDisk;
use cr_pool::Bench;
use std::alloc::{AllocError, Global};
use std::sync::Wait;
use std::thread::Threads;

/// What a run comes to: its status, what it puts, and the file, its copy and its log, where they are there.
pub(crate) type Outcome = (
    u8,
    Vec<u8>,
    Option<Vec<u8>>,
    Option<Vec<u8>>,
    Option<Vec<u8>>,
);

/// The words of a text.
pub(crate) fn words_in(alloc: Global, text: &str) -> Result<Vec<String>, AllocError> {
    let mut words = Vec::new(alloc);
    for word in text.split_whitespace() {
        words.push(String::from_str(alloc, word)?)?;
    }
    Ok(words)
}

/// The words `--workers=N`, `--window=N`, and those of the text.
pub(crate) fn words_of(
    alloc: Global,
    workers: u64,
    window: u64,
    text: &str,
) -> Result<Vec<String>, AllocError> {
    let all = format!(in alloc; "--workers={workers} --window={window} {text}")?;
    words_in(alloc, all.as_str())
}

/// The status of a run. It tells nothing else of what `run` ensures, which no test needs and each proof of a caller would carry.
pub(crate) fn status_of<F: Files, J: Judge + Send, O: Sink>(
    rt: &(impl Threads + Sync),
    alloc: Global,
    words: &[String],
    files: &mut F,
    bench: &mut Bench<J>,
    out: &mut O,
) -> u8 {
    run(rt, alloc, words, files, bench, out)
}

/// The same by the top call that knows all that words may ask for, with a journal beside the files.
pub(crate) fn more_status_of<J: Judge + Send + Drop, O: Sink>(
    rt: &(impl Threads + Wait + Sync),
    alloc: Global,
    words: &[String],
    world: &mut MemDisk,
    bench: &mut Bench<J>,
    out: &mut O,
) -> u8 {
    run_more(rt, alloc, words, world, bench, out)
}

/// One file with its name.
pub(crate) fn one_file(
    alloc: Global,
    name: &str,
    file: Vec<u8>,
) -> Result<Vec<(String, Vec<u8>)>, AllocError> {
    let name = String::from_str(alloc, name)?;
    let mut pairs = Vec::new(alloc);
    pairs.push((name, file))?;
    Ok(pairs)
}

/// What a file has, where it is there.
pub(crate) fn content<F: Files>(alloc: Global, files: &mut F, name: &str) -> Option<Vec<u8>> {
    match files.read(alloc, name, 2_000_000) {
        ReadAnswer::Bytes(bytes) => Some(bytes),
        ReadAnswer::Absent | ReadAnswer::Failed | ReadAnswer::NoMemory => None,
    }
}

// What is seen of a run on `t.c` behind it.
fn seen(
    alloc: Global,
    status: u8,
    put: &[u8],
    files: &mut MemFiles,
) -> Result<Outcome, AllocError> {
    let put = put.to_vec(alloc)?;
    let after = content(alloc, files, "t.c");
    let copy = content(alloc, files, "t.c.orig");
    let log = content(alloc, files, "t.c.log");
    Ok((status, put, after, copy, log))
}

/// What a run on the file `t.c` comes to.
pub(crate) fn outcome<J: Judge + Send>(
    rt: &(impl Threads + Sync),
    alloc: Global,
    words: &[String],
    file: &[u8],
    bench: &mut Bench<J>,
) -> Result<Outcome, AllocError> {
    let pairs = one_file(alloc, "t.c", file.to_vec(alloc)?)?;
    let mut files = MemFiles::new(pairs, Vec::new(alloc));
    let mut out = MemSink::new(alloc, Vec::new(alloc));
    let status = status_of(rt, alloc, words, &mut files, bench, &mut out);
    seen(alloc, status, out.bytes(), &mut files)
}

/// The same, by judges who fail if they are asked at all.
pub(crate) fn silent_outcome(
    rt: &(impl Threads + Sync),
    alloc: Global,
    words: &[String],
    file: &[u8],
) -> Result<Outcome, AllocError> {
    let mut bench = silent_bench(alloc, 3)?;
    outcome(rt, alloc, words, file, &mut bench)
}
