// Words that begin with `-` and aren't among ours: what people bring from other reducers, and slips.
use std::alloc::{AllocError, Global};
use strsim::levenshtein;

/// The options that take a value.
pub const VALUED: [&str; 5] = ["--workers", "--window", "--limit", "--steps", "--passes"];

/// The flags but for `--reached=NAME`.
pub const FLAGS: [&str; 4] = ["--journal", "--resume", "--standing", "--any-order"];

/// What the flag with a label is called.
pub const REACHED: &str = "--reached";

/// The label that a word asks for, where it is that flag.
pub fn label_in(word: &str) -> Option<&str> {
    word.strip_prefix(REACHED)?.strip_prefix('=')
}

/// Whether a word is a flag, where one may stand.
pub fn is_flag(word: &str) -> bool {
    FLAGS.contains(&word) || label_in(word).is_some()
}

const LABELLED: [&str; 1] = [REACHED];

/// The words that stand in the first place.
const FIRST: [&str; 7] = [
    "--replay",
    "--report",
    "--version",
    "--help",
    "--explain",
    "--install",
    "--prove",
];

/// A slip has at most so many letters that differ.
const SLIP: usize = 2;

/// Why this word is no option, and what says here what it says elsewhere. `next` is the word behind it.
pub fn unknown_option(alloc: Global, word: &str, next: Option<&str>) -> Result<String, AllocError> {
    let (name, value) = parts(word, next);
    if FLAGS.contains(&name) {
        return format!(in alloc; "{name} takes no value");
    }
    if name == REACHED {
        return format!(in alloc; "{REACHED} has its label in the same word, as {REACHED}=NAME");
    }
    if name == "--explain" {
        return format!(in alloc;
            "--explain takes token 1 to 5, parse 1 to 4, name 1 or 2, K1 to K43, U1 to U16, N1 to N9, or all"
        );
    }
    if matches!(name, "--install" | "--prove") {
        return format!(in alloc;
            "{name} is the first word, and for creduce in the folder of its sources, which builds the program"
        );
    }
    if FIRST.contains(&name) {
        return format!(in alloc; "{name} is the first word, where it stands");
    }
    let mut text = String::new(alloc);
    write!(text, "\"{name}\" is no option")?;
    push_meant(alloc, &mut text, name, value)?;
    Ok(text)
}

// The name of an option and what stands as its value, of `-j8` too.
fn parts<'a>(word: &'a str, next: Option<&'a str>) -> (&'a str, Option<&'a str>) {
    if let Some((name, value)) = word.split_once('=') {
        return (name, Some(value));
    }
    match (word.strip_prefix("-j"), word.strip_prefix("-n")) {
        (Some(count), _) if is_number(count) => ("-j", Some(count)),
        (_, Some(count)) if is_number(count) => ("-n", Some(count)),
        _ => (word, next),
    }
}

// What says here what this option says elsewhere.
fn push_meant(
    alloc: Global,
    text: &mut String,
    name: &str,
    value: Option<&str>,
) -> Result<(), AllocError> {
    let number = match value {
        Some(value) if is_number(value) => Some(value),
        _ => None,
    };
    if is_workers(name) {
        let count = number.unwrap_or("N");
        return write!(text, ": --workers {count} says that here");
    }
    if name == "--timeout" {
        let seconds = number.unwrap_or("10");
        return write!(
            text,
            ": a time limit stands in TEST, as timeout {seconds} gcc .."
        );
    }
    if is_of_others(name) {
        return write!(
            text,
            ": it is one of other reducers, and creduce has nothing like it"
        );
    }
    match nearest(alloc, name)? {
        Some(near) => write!(text, ": did you mean {near}?"),
        None => Ok(()),
    }
}

fn is_number(value: &str) -> bool {
    !value.is_empty() && value.bytes().all(|b| b.is_ascii_digit())
}

// What other reducers call the number of workers.
fn is_workers(name: &str) -> bool {
    matches!(
        name,
        "-n" | "--n" | "-j" | "--jobs" | "--threads" | "--parallel"
    )
}

// Options of C-Reduce and C-Vise that have no counterpart here.
fn is_of_others(name: &str) -> bool {
    matches!(
        name,
        "--tidy"
            | "--save-temps"
            | "--not-c"
            | "--debug"
            | "--verbose"
            | "--log-level"
            | "--log-file"
            | "--shaddap"
            | "--print-diff"
            | "--no-cache"
            | "--no-give-up"
            | "--no-kill"
            | "--no-timing"
            | "--timing"
            | "--timestamp"
            | "--sllooww"
            | "--skip-initial-passes"
            | "--skip-key-off"
            | "--skip-interestingness-test-check"
            | "--add-pass"
            | "--remove-pass"
            | "--start-with-pass"
            | "--pass-group"
            | "--pass-group-file"
            | "--list-passes"
            | "--no-default-passes"
            | "--max-improvement"
            | "--also-interesting"
            | "--die-on-pass-bug"
            | "--renaming"
            | "--to-utf8"
            | "--sanitize"
            | "--backup"
            | "--commands"
            | "--clang-delta-std"
            | "--clang-delta-preserve-routine"
    )
}

// The one of our options that this is a slip of, the nearest one.
fn nearest(alloc: Global, name: &str) -> Result<Option<&'static str>, AllocError> {
    let mut near = None;
    let mut least = SLIP.saturating_add(1);
    for known in VALUED
        .iter()
        .chain(FLAGS.iter())
        .chain(LABELLED.iter())
        .chain(FIRST.iter())
    {
        let distance = levenshtein(alloc, name, known)?;
        if distance < least {
            least = distance;
            near = Some(*known);
        }
    }
    Ok(near)
}
