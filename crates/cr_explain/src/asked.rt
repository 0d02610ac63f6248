// What is answered without a run.
use crate::help::HELP;
use crate::rows::Kind;
use crate::text::{number_of, number_text};
use std::alloc::{AllocError, Global};

/// The numbers of each kind, in the order of docs/NUMBERS.md.
const NUMBERS: [(Kind, u8); 6] = [
    (Kind::Token, 5),
    (Kind::Parse, 4),
    (Kind::Name, 2),
    (Kind::Type, 43),
    (Kind::Undefined, 16),
    (Kind::Left, 9),
];

/// The text that these words ask for, where they ask for no run: the help, by `--help` or `-h` before any `--`, or what a number means, by
/// `--explain` as the first word.
pub fn asked_text(alloc: Global, words: &[String]) -> Result<Option<String>, AllocError> {
    if asks_help(words) {
        return Ok(Some(help_text(alloc)?));
    }
    match words {
        [first, rest @ ..] if first.as_str() == "--explain" => numbers_text(alloc, rest),
        _ => Ok(None),
    }
}

fn asks_help(words: &[String]) -> bool {
    for word in words {
        match word.as_str() {
            "--help" | "-h" => return true,
            "--" => return false,
            _ => {}
        }
    }
    false
}

/// What `creduce --help` prints.
pub fn help_text(alloc: Global) -> Result<String, AllocError> {
    let mut text = String::new(alloc);
    for line in HELP.iter() {
        text.push_str(line)?;
        text.push('\n')?;
    }
    Ok(text)
}

// What the number means that these words name, which may be two as `token 2`; all of them by `all`.
fn numbers_text(alloc: Global, words: &[String]) -> Result<Option<String>, AllocError> {
    let mut asked = String::new(alloc);
    for word in words {
        asked.push_str(word.as_str())?;
    }
    if asked.as_str() == "all" {
        return Ok(Some(all_text(alloc)?));
    }
    match number_of(asked.as_str()) {
        Some((kind, number)) => Ok(Some(number_text(alloc, kind, number)?)),
        None => Ok(None),
    }
}

fn all_text(alloc: Global) -> Result<String, AllocError> {
    let mut text = String::new(alloc);
    for (kind, last) in NUMBERS {
        for number in 1..=last {
            text.push_str(number_text(alloc, kind, number)?.as_str())?;
        }
    }
    Ok(text)
}
