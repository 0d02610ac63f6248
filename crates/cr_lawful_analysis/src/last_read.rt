// A place for what was read of one file.
ghost use Rattle.std.specs.Prelude.{◌≡◌, IfSome, Some};
ghost use Rattle.cr_lawful_analysis.specs.Analysis.{IsAnalysis};

use crate::analysis::Analysis;
use std::sync::Mutex;

/// A file's bytes with what was read of them.
#[derive(Drop)]
struct FileRead {
    bytes: Vec<u8>,
    analysis: Analysis,
    ghost read: { ∥ IsAnalysis bytes.items analysis ∥₁ },
}

/// Where the law leaves what it read of the last lawful file, so that the passes needn't read it again. Threads may share it; none waits
/// for another.
#[derive(Drop)]
pub struct LastRead {
    place: Mutex<Option<FileRead>>,
}

impl LastRead {
    /// An empty place.
    pub fn new() -> LastRead {
        LastRead {
            place: Mutex::new(None),
        }
    }

    /// Leaves what was read of a file, by its bytes, and drops what lay there. Where another thread is at the place, nothing is left.
    pub fn leave(&self, bytes: Vec<u8>, analysis: Analysis)
        requires { IsAnalysis bytes.items analysis }
    {
        match self.place.try_lock() {
            Some(mut place) => drop(place.replace(FileRead { bytes, analysis })),
            None => drop((bytes, analysis)),
        }
    }

    /// Takes what was read of a file. Where it isn't there, what was read of another is dropped.
    pub fn take(&self, file: &[u8]) -> Option<Analysis>
        ensures { IfSome result (λ analysis. ∥ IsAnalysis file.now analysis ∥₁) }
    {
        let mut place = self.place.try_lock()?;
        let known = place.take()?;
        if known.bytes.as_slice() != file {
            drop(known);
            return None;
        }
        Some(known.analysis)
    }
}
