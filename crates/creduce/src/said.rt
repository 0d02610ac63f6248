// What is said on standard error when a run has ended.
use crate::one_run::{Ended, is_quiet};
use cr_around::documents_of;
use cr_explain::{Seen, TestSeen, explanation, first_place, places_of, read_refusal};
use creduce_system::read_most;
use std::alloc::AllocError;
use std::os::unix::fs::MetadataExt;
use std::{env, fs};

/// The most bytes that are read of a file to say what is wrong with it: more than one that is reduced may have.
const MOST: usize = 1 << 25;

/// Says what a person needs beside the status and the program's line, where quiet isn't asked for. What can't be said stays unsaid.
pub fn explain(rt: &HostRuntime, words: &[String], ended: &Ended) -> Result<(), AllocError> {
    if is_quiet(rt) || ended.was_changed || !matches!(ended.status, 2..=6 | 8 | 9 | 12..=14) {
        return Ok(());
    }
    let put = String::from_utf8_lossy(rt.alloc(), ended.put.as_slice())?;
    let text = text_of(rt, words, ended.status, put.as_str().trim_end())?;
    let _ = eprint!(rt; "{text}");
    Ok(())
}

fn text_of(
    rt: &HostRuntime,
    words: &[String],
    status: u8,
    line: &str,
) -> Result<String, AllocError> {
    let places = places_of(rt.alloc(), words)?;
    let test = places.first().copied().unwrap_or("");
    let named = match read_refusal(line) {
        Some(refused) => refused.name,
        None => places.get(1).copied().unwrap_or(""),
    };
    // A word in no form may name anything.
    let file = bytes_of(rt, named, status != 2);
    // Of a run that isn't defined the line says all that is known of the place.
    let place = match (status, &file) {
        (4, Some(file)) => first_place(rt.alloc(), file.as_slice())?,
        _ => None,
    };
    let folder = env::var(rt, "PWD").ok();
    let script = bytes_of(rt, test, status == 8);
    let documents = documents(rt)?;
    let seen = Seen {
        folder: folder.as_ref().map_or(".", |folder| folder.as_str()),
        file: file.as_ref().map(|file| file.as_slice()),
        place,
        test: test_seen(rt, test, script.as_ref()),
        documents: documents.as_str(),
    };
    explanation(rt.alloc(), words, status, line, seen)
}

fn bytes_of(rt: &HostRuntime, name: &str, is_wanted: bool) -> Option<Vec<u8>> {
    if is_wanted {
        read_most(rt, rt.alloc(), name, MOST).ok()
    } else {
        None
    }
}

fn documents(rt: &HostRuntime) -> Result<String, AllocError> {
    match fs::canonicalize(rt, "/proc/self/exe") {
        Ok(program) => documents_of(rt.alloc(), program.as_str()),
        Err(_) => documents_of(rt.alloc(), ""),
    }
}

fn test_seen<'a>(rt: &HostRuntime, test: &str, bytes: Option<&'a Vec<u8>>) -> TestSeen<'a> {
    let Ok(found) = fs::metadata(rt, test) else {
        return TestSeen::Absent;
    };
    if found.is_dir() {
        return TestSeen::Folder;
    }
    if found.mode() & 0o111 == 0 {
        return TestSeen::Locked;
    }
    match bytes.and_then(|bytes| bytes.as_slice().split(|b| *b == b'\n').next()) {
        Some(first) => TestSeen::Startable(first),
        None => TestSeen::Unseen,
    }
}
