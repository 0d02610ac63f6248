// Files of earlier runs, which are never lost.
use std::alloc::Global;
use std::fs;
use std::io::{self, ErrorKind};
use std::rt::Files as SystemFiles;

/// The most numbers that are tried.
const MOST: u32 = 1_000_000;

/// Whether anything stands there, a link that leads nowhere too.
pub fn stands<R: SystemFiles>(rt: &R, name: &str) -> io::Result<bool> {
    match fs::symlink_metadata(rt, name) {
        Ok(_) => Ok(true),
        Err(e) if e.kind() == ErrorKind::NotFound => Ok(false),
        Err(e) => Err(e),
    }
}

/// Gives what stands there the first name NAME.1, NAME.2 and so on under which nothing stands, which is returned.
pub fn keep_away<R: SystemFiles>(rt: &R, alloc: Global, name: &str) -> io::Result<String> {
    for number in 1..MOST {
        let kept = format!(in alloc; "{name}.{number}")?;
        if !stands(rt, &kept)? {
            fs::rename(rt, name, &*kept)?;
            return Ok(kept);
        }
    }
    Err(io::Error::from(ErrorKind::AlreadyExists))
}
