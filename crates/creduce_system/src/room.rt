// The folder of a judge's trials: made by this run, and emptied before each trial.
ghost use Rattle.std.specs.Prelude.{◌≡◌, None};

use crate::faults::{allowing, fault_of};
use crate::older::{keep_away, stands};
use cr_around::{Place, PlaceFault};
use std::alloc::Global;
use std::fs::{self, File, Metadata, OpenOptions};
use std::io::{self, ErrorKind, Write};
use std::os::fd::AsRawFd;
use std::os::unix::fs::{MetadataExt, OpenOptionsExt};
use std::process::{Command, Processes, Stdio};
use std::rt::{Clock, Files as SystemFiles};
use std::thread;
use std::time::Duration;

/// How often a folder in which somebody still writes is taken away anew, and the milliseconds between.
const TRIES: u32 = 50;

const PAUSE: u64 = 10;

/// A folder in the current one. It tells no content.
///
/// The folder that this run made is known by its device and number, and emptied through its descriptor. So what a test puts in its place is
/// never entered, nor is a link that stands in it followed. Where another folder or anything else stands there, it is taken away, and a new
/// one is made: what an earlier run's test still has as its own folder is then a removed one, in which nothing can be made.
#[derive(Drop)]
pub struct Room<'a, R> {
    rt: &'a R,
    own: Option<(u64, u64)>,
    mode: u32,
}

// The device and the number, by which a folder is known.
fn number_of(found: &Metadata) -> (u64, u64) {
    (found.dev(), found.ino())
}

impl<'a, R> Room<'a, R> {
    /// No folder was made yet. What is put there has this mode.
    pub fn new(rt: &'a R, mode: u32) -> Room<'a, R> {
        Room {
            rt,
            own: None,
            mode,
        }
    }
}

impl<R: Clock + Clone + Drop + Processes + SystemFiles<File = File>> Room<'_, R> {
    // Empties the folder where it is the one that this run made. Answers whether it is.
    fn empty(&self, alloc: Global, folder: &str) -> io::Result<bool> {
        let Some(own) = self.own else {
            return Ok(false);
        };
        // What a test may have put in its place, as a pipe, isn't opened. It may have the number of the folder that went.
        let found = fs::symlink_metadata(self.rt, folder)?;
        if !found.is_dir() || number_of(&found) != own {
            return Ok(false);
        }
        let open = fs::open(self.rt, folder)?;
        if number_of(&open.metadata()?) != own {
            return Ok(false);
        }
        let within = format!(in alloc; "/proc/self/fd/{}", open.as_raw_fd())?;
        for entry in fs::read_dir(&(self.rt.clone()?, alloc), &*within)? {
            let entry = entry?;
            if entry.file_type()?.is_dir() {
                self.rt.remove_dir_all(alloc, entry.path().as_str())?;
            } else {
                fs::remove_file(self.rt, entry.path())?;
            }
        }
        Ok(true)
    }

    // Makes the folder, in the place of whatever stands there.
    fn renew(&mut self, alloc: Global, folder: &str) -> io::Result<()> {
        self.own = None;
        if self.remove(alloc, folder).is_err() && self.remove_closed(alloc, folder).is_err() {
            // A test has left something there that can't be taken away, as a folder of another user's.
            keep_away(self.rt, alloc, folder)?;
        }
        fs::create_dir(self.rt, folder)?;
        self.own = Some(number_of(&fs::symlink_metadata(self.rt, folder)?));
        Ok(())
    }

    // Takes away what stands there, also while somebody still writes in it. A pipe isn't opened for that: it would wait.
    fn remove(&self, alloc: Global, folder: &str) -> io::Result<()> {
        if !stands(self.rt, folder)? {
            return Ok(());
        }
        if !fs::symlink_metadata(self.rt, folder)?.is_dir() {
            return fs::remove_file(self.rt, folder);
        }
        for _ in 0..TRIES {
            match self.rt.remove_dir_all(alloc, folder) {
                Err(e) if e.kind() == ErrorKind::DirectoryNotEmpty => {
                    thread::sleep(self.rt, Duration::from_millis(PAUSE));
                }
                removed => return allowing(removed, ErrorKind::NotFound),
            }
        }
        Err(io::Error::from(ErrorKind::DirectoryNotEmpty))
    }

    // Takes away what stands there where a test has left folders without leave to write. No file's mode is changed, since it may have a name
    // elsewhere, and no link is followed.
    fn remove_closed(&self, alloc: Global, folder: &str) -> io::Result<()> {
        if !fs::symlink_metadata(self.rt, folder)?.is_dir() {
            return Err(io::Error::from(ErrorKind::PermissionDenied));
        }
        let mut command = Command::new(alloc, "find")?;
        for word in [folder, "-type", "d", "-exec", "chmod", "u+rwx", "{}", ";"] {
            command.arg(word)?;
        }
        command
            .stdin(Stdio::null())
            .stdout(Stdio::null())
            .stderr(Stdio::null());
        command.status(self.rt)?;
        self.remove(alloc, folder)
    }

    fn put_new(&self, path: &str, bytes: &[u8]) -> io::Result<()> {
        OpenOptions::new()
            .write(true)
            .create_new(true)
            .mode(self.mode)
            .open(self.rt, path)?
            .write_all(bytes)
    }
}

impl<R: Clock + Clone + Drop + Processes + SystemFiles<File = File>> Place for Room<'_, R> {
    ghost told = { λ _. None };

    fn clear(&mut self, alloc: Global, folder: &str) -> Result<(), PlaceFault> {
        if self.empty(alloc, folder).unwrap_or(false) {
            return Ok(());
        }
        self.renew(alloc, folder).map_err(fault_of)
    }

    fn put(&mut self, _alloc: Global, path: &str, bytes: &[u8]) -> Result<(), PlaceFault> {
        self.put_new(path, bytes).map_err(fault_of)
    }
}
