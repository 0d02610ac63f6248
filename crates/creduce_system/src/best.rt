// The smallest file so far that passed the test, on the disk.
ghost use Rattle.std.specs.Prelude.{◌≡◌, IfOk, string_bytes};
ghost use Rattle.creduce_system.specs.Progress.{best_of};

use crate::faults::allowing;
use crate::older::{keep_away, stands};
use crate::part::make;
use crate::paths::part_of;
use std::alloc::{AllocError, Global};
use std::fs::{self, File};
use std::io::{self, ErrorKind, Write};
use std::rt::Files;

/// Where the smallest file stands: beside the file that is reduced, whose mode it has.
#[derive(Drop)]
pub struct Best<'a> {
    reduced: &'a str,
    file: String,
    part: String,
}

impl<'a> Best<'a> {
    /// That of a file.
    pub fn new(alloc: Global, reduced: &'a str) -> Result<Best<'a>, AllocError>
        ensures { IfOk result (λ best. string_bytes best.file ≡ best_of reduced.now) }
    {
        let file = format!(in alloc; "{reduced}.best")?;
        let part = part_of(alloc, file.as_str())?;
        Ok(Best {
            reduced,
            file,
            part,
        })
    }

    /// Gives what an earlier run has left there a name of its own.
    pub fn clear<R: Files>(&self, rt: &R, alloc: Global) -> io::Result<()> {
        if stands(rt, &self.file)? {
            keep_away(rt, alloc, self.file.as_str())?;
        }
        Ok(())
    }

    /// Puts a file there in the place of the one before. It is written beside that one and then renamed, so that one of the two stands
    /// there whole, whatever ends the program.
    pub fn put<R: Files<File = File>>(&self, rt: &R, bytes: &[u8]) -> io::Result<()> {
        let like = fs::metadata(rt, self.reduced)?;
        allowing(fs::remove_file(rt, &*self.part), ErrorKind::NotFound)?;
        make(rt, self.part.as_str(), Some(&like))?.write_all(bytes)?;
        fs::rename(rt, &*self.part, &*self.file)
    }

    /// Takes it away.
    pub fn remove<R: Files>(&self, rt: &R) -> io::Result<()> {
        fs::remove_file(rt, &*self.file)
    }
}
