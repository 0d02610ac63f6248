// The lock of the trial folders in the current folder.
use crate::older::stands;
use crate::paths::folder_of;
use crate::std_files::read_most;
use std::alloc::{AllocError, Global};
use std::fs::{self, File, OpenOptions, TryLockError};
use std::io::{self, ErrorKind, Seek, SeekFrom, Write};
use std::rt::{Clock, Files as SystemFiles};
use std::thread;
use std::time::Duration;

/// Its file in the current folder.
pub const NAME: &str = "creduce-trial.lock";

/// How often it is tried, and the milliseconds between: 10 seconds, in which what a run that was ended from outside has left is ended too.
const TRIES: u32 = 100;

const PAUSE: u64 = 100;

/// The most bytes that are read of it.
const MOST: usize = 65_536;

/// The lock, which one run in a folder has at a time.
///
/// The system lets it go when this and each copy of its descriptor are closed, however the process ends.
#[derive(Drop)]
pub struct Lock {
    file: File,
}

/// What came of asking for the lock.
#[derive(Drop)]
pub enum Taking {
    /// It is had, and its file held this text before.
    Taken(Lock, String),
    /// Another run has it, and its file holds this text.
    Busy(String),
    /// Whether another run has it can't be told, since the file system has no locks. Its file held this text before.
    Untold(Lock, String),
    /// Its file can't be made here.
    Missing,
    /// What stands there is no plain file.
    NoFile,
}

impl Lock {
    /// Asks for the lock, for 10 seconds.
    pub fn take<R: Clock + SystemFiles<File = File>>(rt: &R, alloc: Global) -> io::Result<Taking> {
        if stands(rt, NAME)? && !fs::symlink_metadata(rt, NAME)?.is_file() {
            return Ok(Taking::NoFile);
        }
        let mut options = OpenOptions::new();
        options.read(true).write(true).create(true);
        let Ok(file) = options.open(rt, NAME) else {
            return Ok(Taking::Missing);
        };
        for _ in 0..TRIES {
            match file.try_lock() {
                Ok(()) => return Ok(Taking::Taken(Lock { file }, text(rt, alloc)?)),
                Err(TryLockError::WouldBlock) => thread::sleep(rt, Duration::from_millis(PAUSE)),
                Err(TryLockError::Error(_)) => {
                    return Ok(Taking::Untold(Lock { file }, text(rt, alloc)?));
                }
            }
        }
        Ok(Taking::Busy(text(rt, alloc)?))
    }

    /// Writes this text into its file, in the place of what it held.
    pub fn write(&mut self, text: &str) -> io::Result<()> {
        self.file.seek(SeekFrom::Start(0))?;
        self.file.write_all(text.as_bytes())?;
        self.file.set_len(text.len() as u64)
    }

    /// A copy of its descriptor, with which the lock goes on.
    pub fn share(&self) -> io::Result<File> {
        self.file.try_clone()
    }
}

// What its file holds. A text of another kind is none.
fn text<R: SystemFiles<File = File>>(rt: &R, alloc: Global) -> io::Result<String> {
    let bytes = read_most(rt, alloc, NAME, MOST)?;
    match String::from_utf8(bytes) {
        Ok(text) => Ok(text),
        Err(_) => Ok(String::new(alloc)),
    }
}

/// Whether what stands in the place of this trial folder is none that can be emptied unasked: a file, a link, or a folder with something in it.
pub fn is_others<R: Clone + Drop + SystemFiles<File = File>>(
    rt: &R,
    alloc: Global,
    number: u32,
) -> Result<bool, AllocError> {
    let folder = format!(in alloc; "creduce-trial-{number}")?;
    let Ok(found) = fs::symlink_metadata(rt, &*folder) else {
        return Ok(false);
    };
    if !found.is_dir() {
        return Ok(true);
    }
    match fs::read_dir(&(rt.clone()?, alloc), &*folder) {
        Ok(mut entries) => Ok(entries.next().is_some()),
        Err(_) => Ok(true),
    }
}

/// Whether a trial folder can be made here, or the first is there.
pub fn takes_folders<R: SystemFiles>(rt: &R) -> bool {
    const FIRST: &str = "creduce-trial-0";
    match fs::create_dir(rt, FIRST) {
        Ok(()) => fs::remove_dir(rt, FIRST).is_ok(),
        Err(e) => e.kind() == ErrorKind::AlreadyExists,
    }
}

/// Whether what a path names, or the folder in which the name stands, is within this trial folder, so that it would go with what a test leaves.
pub fn is_within<R: SystemFiles<File = File>>(
    rt: &R,
    alloc: Global,
    number: u32,
    path: &str,
) -> Result<bool, AllocError> {
    let folder = format!(in alloc; "creduce-trial-{number}")?;
    let Ok(folder) = rt.canonicalize(alloc, folder.as_str()) else {
        return Ok(false);
    };
    for place in [path, folder_of(path)] {
        if let Ok(place) = rt.canonicalize(alloc, place) {
            if is_at_or_below(place.as_str(), folder.as_str()) {
                return Ok(true);
            }
        }
    }
    Ok(false)
}

// Whether a whole path is this one, or goes on below it.
fn is_at_or_below(path: &str, folder: &str) -> bool {
    match path.strip_prefix(folder) {
        Some(rest) => rest.is_empty() || rest.starts_with('/'),
        None => false,
    }
}
