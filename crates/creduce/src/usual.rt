// How many workers there are where no word says it: as many as processors. Nothing that comes out depends on it.
use std::alloc::{AllocError, Global};
use std::thread::{self, Threads};

/// As many there are at least, since a test often waits more than it computes.
const LEAST: usize = 4;

/// And at most.
const MOST: usize = 32;

// Whether the words say it, or are those of a replay, which has no workers.
fn say_workers(words: &[String]) -> bool {
    words.iter().any(|word| {
        word.as_str() == "--workers"
            || word.as_str().starts_with("--workers=")
            || word.as_str() == "--replay"
    })
}

fn processors(threads: &impl Threads) -> usize {
    match thread::available_parallelism(threads) {
        Ok(count) => count.get(),
        Err(_) => LEAST,
    }
}

/// The same words, with the number of workers in front where they don't say it.
pub fn with_workers(
    alloc: Global,
    threads: &impl Threads,
    words: &[String],
) -> Result<Vec<String>, AllocError> {
    let mut all = Vec::new(alloc);
    if !say_workers(words) {
        let count = processors(threads).max(LEAST).min(MOST);
        all.push(format!(in alloc; "--workers={count}")?)?;
    }
    for word in words {
        all.push(word.clone()?)?;
    }
    Ok(all)
}
