// The journal's file in the operating system.
ghost use Rattle.std.specs.Prelude.{◌≡◌, ◌≤◌, IsErr, IsErrOf, None, is_some, false, true};
ghost use Rattle.cr_outside.specs.Faults.{Rose};

use crate::part::sync_name;
use crate::std_files::StdFiles;
use cr_around::JournalWords;
use cr_outside::{FileFault, Files, Outside, ReadAnswer};
use cr_outside_disk::{Disk, DiskFault};
use std::alloc::Global;
use std::fs::{File, OpenOptions};
use std::io::{self, ErrorKind};
use std::os::unix::fs::FileExt;
use std::rt::Files as SystemFiles;

/// The files of the operating system, by their paths, and one of them as a journal. It tells nothing.
///
/// While it has the journal open it holds the system's lock of that file, so that no second run writes to it. A file that it writes is on
/// the disk before the write answers `Ok`, as `StdFiles` has it. So what a journal speaks of is there once the journal is.
#[derive(Drop)]
pub struct StdDisk<'a, R> {
    rt: &'a R,
    files: StdFiles<'a, R>,
    journal: Option<File>,
    size: u64,
    faults: u64,
    has_failed: bool,
}

impl<'a, R> StdDisk<'a, R> {
    /// No journal is open, and no call has failed yet. `reduced` is the file that is reduced.
    pub fn new(rt: &'a R, reduced: Option<&'a str>) -> StdDisk<'a, R>
        ensures none { (result.faults ≡ 0) × (result.has_failed ≡ false) × (is_some result.journal ≡ false) }
    {
        StdDisk {
            rt,
            files: StdFiles::new(rt, reduced),
            journal: None,
            size: 0,
            faults: 0,
            has_failed: false,
        }
    }

    /// The same, whose files note the checksum of the result beside the journal before it is put in the file's place.
    pub fn noting(self, words: Option<JournalWords>) -> StdDisk<'a, R>
        ensures none { (result.faults ≡ self.entry.faults) × (result.has_failed ≡ self.entry.has_failed) × (is_some result.journal ≡ is_some self.entry.journal) }
    {
        StdDisk {
            files: self.files.noting(words),
            ..self
        }
    }

    /// Whether the file that is reduced was changed by somebody before its result came, so that it was not written.
    pub fn was_changed(&self) -> bool {
        self.files.was_changed
    }

    /// Under which name an older copy of the file that is reduced is kept, once it was renamed.
    pub fn kept(&self) -> Option<&String> {
        self.files.kept.as_ref()
    }

    // Closes the journal after a refused change: what stands in the file isn't known.
    fn refuse(&mut self, error: io::Error) -> Result<(), DiskFault>
        ensures refused { IsErr result }
        ensures same { self.new.size ≡ self.old.size }
        ensures later { self.old.faults ≤ self.new.faults }
        ensures failed { IsErrOf result DiskFault.Failed → Rose self.old.faults self.new.faults × (self.new.has_failed ≡ true) }
    {
        self.journal = None;
        Err(fault_of(error, &mut self.faults, &mut self.has_failed))
    }
}

// Opens a journal, or makes it, locks it, and puts its name on the disk. The length is that of the file.
fn open<R: SystemFiles<File = File>>(rt: &R, name: &str) -> io::Result<(File, u64)> {
    let file = OpenOptions::new()
        .read(true)
        .write(true)
        .create(true)
        .open(rt, name)?;
    file.try_lock().map_err(io::Error::from)?;
    let len = file.metadata()?.len();
    sync_name(rt, name)?;
    Ok((file, len))
}

// What an error is to the journal. A fault is counted.
fn fault_of(error: io::Error, faults: &mut u64, has_failed: &mut bool) -> DiskFault
    ensures later { faults.old ≤ faults.new }
    ensures failed { result ≡ DiskFault.Failed → Rose faults.old faults.new × (has_failed.new ≡ true) }
{
    if error.kind() == ErrorKind::OutOfMemory {
        return DiskFault::NoMemory;
    }
    *faults = faults.saturating_add(1);
    *has_failed = true;
    DiskFault::Failed
}

impl<R> Outside for StdDisk<'_, R> {
    ghost story = { λ _. None };
}

impl<R: SystemFiles<File = File>> Files for StdDisk<'_, R> {
    ghost faults = { λ d. d.files.faults };

    fn read(&mut self, alloc: Global, name: &str, most: usize) -> ReadAnswer {
        self.files.read(alloc, name, most)
    }

    fn write(&mut self, alloc: Global, name: &str, bytes: &[u8]) -> Result<(), FileFault> {
        self.files.write(alloc, name, bytes)
    }
}

impl<R: SystemFiles<File = File>> Disk for StdDisk<'_, R> {
    ghost is_ready = { λ d. is_some d.journal };

    ghost size = { λ d. d.size };

    ghost faults = { λ d. d.faults };

    ghost has_failed = { λ d. d.has_failed };

    ghost has_length = { λ _ _. tt };

    fn start(&mut self, _alloc: Global, name: &str) -> Result<u64, DiskFault> {
        self.has_failed = false;
        self.journal = None;
        match open(self.rt, name) {
            Ok((file, len)) => {
                self.journal = Some(file);
                self.size = len;
                Ok(len)
            }
            Err(error) => Err(fault_of(error, &mut self.faults, &mut self.has_failed)),
        }
    }

    fn read(&mut self, _alloc: Global, at: u64, into: &mut [u8]) -> Result<(), DiskFault> {
        self.has_failed = false;
        let Some(file) = &self.journal else {
            return Err(DiskFault::NoMemory);
        };
        match file.read_exact_at(into, at) {
            Ok(()) => Ok(()),
            Err(error) => Err(fault_of(error, &mut self.faults, &mut self.has_failed)),
        }
    }

    fn write(&mut self, _alloc: Global, at: u64, bytes: &[u8]) -> Result<(), DiskFault> {
        self.has_failed = false;
        let Some(file) = &self.journal else {
            return Err(DiskFault::NoMemory);
        };
        match file.write_all_at(bytes, at) {
            Ok(()) => {
                self.size = self.size.max(at + bytes.len() as u64);
                Ok(())
            }
            Err(error) => self.refuse(error),
        }
    }

    fn cut(&mut self, _alloc: Global, len: u64) -> Result<(), DiskFault> {
        self.has_failed = false;
        let Some(file) = &self.journal else {
            return Err(DiskFault::NoMemory);
        };
        match file.set_len(len) {
            Ok(()) => {
                self.size = len;
                Ok(())
            }
            Err(error) => self.refuse(error),
        }
    }

    fn sync(&mut self, _alloc: Global) -> Result<(), DiskFault> {
        self.has_failed = false;
        let Some(file) = &self.journal else {
            return Err(DiskFault::NoMemory);
        };
        match file.sync_all() {
            Ok(()) => Ok(()),
            Err(error) => self.refuse(error),
        }
    }
}
