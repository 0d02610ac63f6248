// A place for what the run of one file came to.
ghost use Rattle.std.specs.Prelude.{◌≡◌, IfSome, IsTrue};
ghost use Rattle.cr_lawful.specs.Runs.{CameTo, ComesToEnd};

use crate::ends::Ended;
use cr_meaning::{Limits, Run};
use std::alloc::Global;
use std::sync::Mutex;

/// A file's bytes with how its run within limits ended.
#[derive(Drop)]
struct FileRun {
    limits: Limits,
    bytes: Vec<u8>,
    end: Ended,
    ghost came: { ComesToEnd limits bytes.items end.status end.output },
}

/// Where the law leaves how the run of the last lawful file ended, so that it needn't be run again. Threads may share it; none waits for
/// another.
#[derive(Drop)]
pub struct LastRun {
    place: Mutex<Option<FileRun>>,
}

impl LastRun {
    /// An empty place.
    pub fn new() -> LastRun {
        LastRun {
            place: Mutex::new(None),
        }
    }

    /// Leaves how a file's run ended, and drops what lay there. Where another thread is at the place, nothing is left.
    pub fn leave(&self, limits: Limits, bytes: Vec<u8>, end: Ended)
        requires { ComesToEnd limits bytes.items end.status end.output }
    {
        match self.place.try_lock() {
            Some(mut place) => drop(place.replace(FileRun { limits, bytes, end })),
            None => drop((bytes, end)),
        }
    }

    /// Takes how a file's run within limits ended. Where it isn't there, what lay there of another is dropped.
    pub fn take(&self, limits: Limits, file: &[u8]) -> Option<Ended>
        ensures { IfSome result (λ end. ComesToEnd limits file.now end.status end.output) }
    {
        let mut place = self.place.try_lock()?;
        let known = place.take()?;
        if !is_of(&known, &limits, file) {
            drop(known);
            return None;
        }
        Some(known.end)
    }
}

/// Leaves how a file's run within limits ended, where there is a place for that.
pub fn leave_run(alloc: Global, file: &[u8], limits: Limits, runs: Option<&LastRun>, run: Run)
    requires { CameTo limits file.now run }
{
    match run {
        Run::Ended {
            status,
            output,
            steps: _,
        } => leave_end(alloc, file, limits, runs, Ended { status, output }),
        other => drop(other),
    }
}

fn leave_end(alloc: Global, file: &[u8], limits: Limits, runs: Option<&LastRun>, end: Ended)
    requires { ComesToEnd limits file.now end.status end.output }
{
    match runs {
        Some(runs) => leave_at(alloc, file, limits, end, runs),
        None => drop(end),
    }
}

fn leave_at(alloc: Global, file: &[u8], limits: Limits, end: Ended, runs: &LastRun)
    requires { ComesToEnd limits file.now end.status end.output }
{
    match file.to_vec(alloc) {
        Ok(bytes) => runs.leave(limits, bytes, end),
        Err(_) => drop(end),
    }
}

fn is_of(known: &FileRun, limits: &Limits, file: &[u8]) -> bool
    ensures { IsTrue result → (known.now.limits ≡ limits.now) × (known.now.bytes.items ≡ file.now) }
{
    known.bytes.as_slice() == file && is_same(&known.limits, limits)
}

fn is_same(one: &Limits, other: &Limits) -> bool
    ensures { IsTrue result → one.now ≡ other.now }
{
    one.steps == other.steps
        && one.depth == other.depth
        && one.cells == other.cells
        && one.output == other.output
}
