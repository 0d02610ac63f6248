// Names beside a file.
use std::alloc::{AllocError, Global};

/// What the name of a part ends with, which is renamed once it is whole.
const PART: &str = ".creduce-part";

/// The most bytes of a name in a folder.
const MOST: usize = 255;

/// The folder of a path.
pub fn folder_of(name: &str) -> &str {
    match name.rsplit_once('/') {
        None => ".",
        Some(("", _)) => "/",
        Some((folder, _)) => folder,
    }
}

fn own_of(name: &str) -> &str {
    match name.rsplit_once('/') {
        None => name,
        Some((_, own)) => own,
    }
}

/// Whether a name may go on with this end.
pub fn has_room(name: &str, ending: &str) -> bool {
    own_of(name).len().saturating_add(ending.len()) <= MOST
}

/// The part beside a file; where the file's own name is so long that no other fits behind it, one of a fixed name.
pub fn part_of(alloc: Global, name: &str) -> Result<String, AllocError> {
    if has_room(name, PART) {
        format!(in alloc; "{name}{PART}")
    } else {
        format!(in alloc; "{}/{PART}", folder_of(name))
    }
}
