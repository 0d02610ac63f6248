// The standard streams, where some of them are closed.
use std::alloc::Global;
use std::fs::{File, OpenOptions};
use std::io::{self, ErrorKind};
use std::os::fd::AsRawFd;
use std::rt::Files as SystemFiles;

/// The number of standard error, the last of the standard streams.
const LAST: i32 = 2;

/// Takes the numbers of the standard streams that are closed, by the null device, so that no file that is opened gets one of them while
/// what is returned is kept. A write to such a stream still fails, since the device is opened for reading.
pub fn hold_standard<R: SystemFiles<File = File>>(rt: &R, alloc: Global) -> io::Result<Vec<File>> {
    let mut held = Vec::new(alloc);
    for _ in 0..=LAST {
        let file = OpenOptions::new().read(true).open(rt, "/dev/null")?;
        if file.as_raw_fd() > LAST {
            break;
        }
        held.push(file)?;
    }
    Ok(held)
}
