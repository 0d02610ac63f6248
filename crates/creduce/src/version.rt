// What the program says of itself.
use crate::refused::program_sum;
use cr_around::recorded;
use creduce_system::read_most;
use std::alloc::AllocError;
use std::fs;

/// The most bytes of a record.
const MOST: usize = 65_536;

/// Status 1: this isn't the program of the record, or there is none.
const OTHER: u8 = 1;

/// Prints the record that stands beside the program, and answers whether this program is the recorded one.
pub fn version(rt: &HostRuntime) -> Result<u8, AllocError> {
    let Some(record) = record(rt)? else {
        let _ = println!(rt; "creduce 0.9.0");
        let _ = eprintln!(rt; "creduce: no creduce.record stands beside this program");
        return Ok(OTHER);
    };
    let _ = print!(rt; "{record}");
    let own = program_sum(rt);
    if own.is_some()
        && own.as_ref().map(|sum| sum.as_str()) == recorded(record.as_str(), "program")
    {
        return Ok(0);
    }
    let _ = eprintln!(rt; "creduce: this program isn't the one of creduce.record");
    Ok(OTHER)
}

fn record(rt: &HostRuntime) -> Result<Option<String>, AllocError> {
    let alloc = rt.alloc();
    let Ok(program) = fs::canonicalize(rt, "/proc/self/exe") else {
        return Ok(None);
    };
    let path = format!(in alloc; "{}.record", program.as_str())?;
    match read_most(rt, alloc, path.as_str(), MOST) {
        Ok(bytes) => Ok(String::from_utf8(bytes).ok()),
        Err(_) => Ok(None),
    }
}
