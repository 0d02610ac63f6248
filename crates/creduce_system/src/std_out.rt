// Standard output.
ghost use Rattle.std.specs.Prelude.{◌≡◌, None};

use crate::progress::Progress;
use cr_outside::{Sink, SinkFault};
use std::alloc::Global;
use std::io::{self, Eprint, ErrorKind, Print, Write};
use std::rt::Clock;

/// Standard output, and what was put there so far, as far as memory served. It tells nothing.
#[derive(Drop)]
pub struct StdOut<'a, R> {
    rt: &'a R,
    progress: Option<&'a Progress<'a>>,
    so_far: Vec<u8>,
    faults: u64,
}

impl<'a, R> StdOut<'a, R> {
    /// No call has failed yet.
    pub fn new(rt: &'a R, alloc: Global) -> StdOut<'a, R>
        ensures { result.faults ≡ 0 }
    {
        StdOut {
            rt,
            progress: None,
            so_far: Vec::new(alloc),
            faults: 0,
        }
    }

    /// The same, before whose first piece progress is shown for the last time.
    pub fn behind(self, progress: &'a Progress<'a>) -> StdOut<'a, R>
        ensures { result.faults ≡ self.entry.faults }
    {
        StdOut {
            progress: Some(progress),
            ..self
        }
    }

    /// What was put so far, also where that failed.
    pub fn so_far(&self) -> &[u8] {
        self.so_far.as_slice()
    }
}

impl<R: Clock + Eprint + Print> Sink for StdOut<'_, R> {
    ghost told = { λ _. None };

    ghost faults = { λ s. s.faults };

    fn put(&mut self, bytes: &[u8]) -> Result<(), SinkFault> {
        if let Some(progress) = self.progress {
            progress.finish(self.rt);
        }
        // What is said beside it would lack it then.
        let _ = self.so_far.extend_from_slice(bytes);
        match io::writer(self.rt).write_all(bytes) {
            Ok(()) => Ok(()),
            Err(e) if e.kind() == ErrorKind::OutOfMemory => Err(SinkFault::NoMemory),
            Err(_) => {
                self.faults = self.faults.saturating_add(1);
                Err(SinkFault::Failed)
            }
        }
    }
}
