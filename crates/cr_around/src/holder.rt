// What the file of the lock says: which run has the trial folders, and how many of them are creduce's own.
use crate::journal_words::escaped;
use std::alloc::{AllocError, Global};

/// What the run of this process writes into it, which reduces this file.
pub fn holder_text(
    alloc: Global,
    process: u32,
    name: &str,
    folders: u32,
) -> Result<String, AllocError> {
    let name = escaped(alloc, name)?;
    format!(in alloc; "process {process} reduces {name}\nfolders {folders}\n")
}

/// Who has it, by its text.
pub fn holder_in(text: &str) -> &str {
    match text.split_once('\n') {
        Some((holder, _)) => holder,
        None => "another process",
    }
}

/// How many of the folders from the first on are creduce's own, by its text.
pub fn folders_in(text: &str) -> u32 {
    let folders = text
        .split('\n')
        .find_map(|line| line.strip_prefix("folders "));
    folders
        .and_then(|folders| folders.parse().ok())
        .unwrap_or(0)
}
