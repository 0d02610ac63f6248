//! `creduce [--workers N] [--window N] [--limit N] [--steps N] [--passes LETTERS] TEST FILE`: reduces FILE while the test says yes, with
//! `--journal` so that `--resume` goes on after a stop, and `creduce --replay [--steps N] [--passes LETTERS] LOG FILE` checks a log,
//! and `creduce --report FILE.log` shows what it says; it ends with the status of `run_more`, which see.
#![tactic(auto)]

mod asked;
mod folders;
mod journal;
mod one_run;
mod refused;
mod report;
mod said;
mod usual;
mod version;
mod watched;

use crate::asked::asked;
use crate::one_run::{Ended, run};
use crate::report::report;
use crate::said::explain;
use crate::version::version;
use creduce_system::hold_standard;
use std::alloc::AllocError;
use std::process::ExitCode;
use std::sync::Wait;
use std::thread::Threads;
use std::{env, io};

/// Status 11: no memory is left.
const NO_MEMORY: u8 = 11;

fn given(rt: &HostRuntime) -> io::Result<Vec<String>> {
    let mut words = Vec::new(rt.alloc());
    for word in env::args(rt)?.skip(1) {
        words.push(word)?;
    }
    Ok(words)
}

// The words after the program's name. Where one of them is no text, the words are in no form, as an empty list is.
fn words(rt: &HostRuntime) -> Result<Vec<String>, AllocError> {
    match given(rt) {
        Ok(words) => Ok(words),
        Err(e) if e.kind() == io::ErrorKind::OutOfMemory => Err(AllocError),
        Err(_) => Ok(Vec::new(rt.alloc())),
    }
}

fn answer(rt: &HostRuntime, threads: &(impl Threads + Wait + Sync)) -> Result<u8, AllocError> {
    match words(rt) {
        Ok(words) => answer_to(rt, threads, words.as_slice()),
        Err(fault) => Err(fault),
    }
}

fn answer_to(
    rt: &HostRuntime,
    threads: &(impl Threads + Wait + Sync),
    words: &[String],
) -> Result<u8, AllocError> {
    match asked(rt, words) {
        Ok(Some(status)) => Ok(status),
        Ok(None) => do_task(rt, threads, words),
        Err(fault) => Err(fault),
    }
}

fn do_task(
    rt: &HostRuntime,
    threads: &(impl Threads + Wait + Sync),
    words: &[String],
) -> Result<u8, AllocError> {
    let Some((first, rest)) = words.split_first() else {
        return reduced(rt, threads, words);
    };
    match first.as_str() {
        "--version" => version(rt),
        "--report" => report(rt, rest),
        _ => reduced(rt, threads, words),
    }
}

fn reduced(
    rt: &HostRuntime,
    threads: &(impl Threads + Wait + Sync),
    words: &[String],
) -> Result<u8, AllocError> {
    match run(rt, threads, words) {
        Ok(ended) => status_of(rt, words, &ended),
        Err(fault) => Err(fault),
    }
}

fn status_of(rt: &HostRuntime, words: &[String], ended: &Ended) -> Result<u8, AllocError> {
    explain(rt, words, ended)?;
    Ok(ended.status)
}

fn main(rt: HostRuntime) -> ExitCode {
    // Where a standard stream is closed, no file of the run becomes it.
    let held = hold_standard(&rt, rt.alloc());
    // The runtime comes twice: only under the bounds `Threads` and `Wait` may it make threads that wait for each other, and then it is any such type.
    let status = match answer(&rt, &rt) {
        Ok(status) => status,
        Err(_) => NO_MEMORY,
    };
    drop(held);
    ExitCode::from(status)
}
