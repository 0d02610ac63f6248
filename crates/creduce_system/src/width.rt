// How wide the terminal is.
use std::alloc::Global;
use std::fs::{self, File};
use std::io::{self, ErrorKind};
use std::process::{Command, Processes, Stdio};
use std::rt::Files as SystemFiles;

/// So wide it is taken to be where that can't be told.
const USUAL: u64 = 80;

/// The columns of the terminal that this process has.
pub fn columns<R: Processes + SystemFiles<File = File>>(rt: &R, alloc: Global) -> u64 {
    match told(rt, alloc) {
        Ok(columns) if columns > 0 => columns,
        _ => USUAL,
    }
}

// By `stty size`, which says `ROWS COLUMNS`.
fn told<R: Processes + SystemFiles<File = File>>(rt: &R, alloc: Global) -> io::Result<u64> {
    let mut command = Command::new(alloc, "stty")?;
    command.arg("size")?;
    command
        .stdin(Stdio::from(fs::open(rt, "/dev/tty")?))
        .stderr(Stdio::null());
    let out = command.output(rt)?;
    let text = match String::from_utf8(out.stdout) {
        Ok(text) => text,
        Err(_) => return Err(io::Error::from(ErrorKind::InvalidData)),
    };
    let columns = text
        .trim()
        .split_once(' ')
        .and_then(|(_, columns)| columns.parse().ok());
    columns.ok_or(io::Error::from(ErrorKind::InvalidData))
}
