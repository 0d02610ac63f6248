// Where the program stands, and what belongs to it.
use std::alloc::{AllocError, Global};

/// How the path of the program may end, and where its documents are then: beside its sources, or below the prefix where it was installed.
const PLACES: [(&str, &str); 3] = [
    ("/crates/creduce/out/creduce", "/docs"),
    ("/release/creduce", "/docs"),
    ("/bin/creduce", "/share/creduce/docs"),
];

/// The folder of the documents of a program that stands at this path.
pub fn documents_of(alloc: Global, program: &str) -> Result<String, AllocError> {
    for (end, documents) in PLACES {
        if let Some(top) = program.strip_suffix(end) {
            return format!(in alloc; "{top}{documents}");
        }
    }
    String::from_str(alloc, "docs")
}

/// What a record of a program says of this word.
pub fn recorded<'a>(record: &'a str, word: &str) -> Option<&'a str> {
    record
        .split('\n')
        .find_map(|line| line.strip_prefix(word)?.strip_prefix(' '))
}
