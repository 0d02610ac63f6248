// Checksums of files.
use crate::std_files::read_most;
use sha2::{Digest, Sha256};
use std::alloc::{AllocError, Global};
use std::fs::File;
use std::io;
use std::rt::Files as SystemFiles;

/// The most bytes of a file of which a checksum is taken.
const MOST: usize = 1 << 28;

/// The SHA-256 of a plain file's bytes, in hexadecimal digits.
pub fn sum_of<R: SystemFiles<File = File>>(
    rt: &R,
    alloc: Global,
    path: &str,
) -> io::Result<String> {
    let bytes = read_most(rt, alloc, path, MOST)?;
    Ok(sum_of_bytes(alloc, &bytes)?)
}

/// The SHA-256 of bytes, in hexadecimal digits.
pub fn sum_of_bytes(alloc: Global, bytes: &[u8]) -> Result<String, AllocError> {
    let mut text = String::new(alloc);
    for byte in Sha256::digest(bytes) {
        write!(text, "{byte:02x}")?;
    }
    Ok(text)
}
