// What is said beside each status.
use crate::lines::read_refusal;
use crate::options::{VALUED, is_flag};
use crate::place::Place;
use crate::refusals::refusal_text;
use crate::rows::Kind;
use crate::text::number_text;
use crate::words::{test_fault, word_fault};
use std::alloc::{AllocError, Global};

/// What was seen of a test that is a path.
#[derive(Clone, Copy, Debug, PartialEq, Eq)]
pub enum TestSeen<'a> {
    /// Nothing was looked for: the test is no path, or it doesn't matter.
    Unseen,
    Absent,
    Folder,
    /// It may not be executed.
    Locked,
    /// It can be started, as far as is seen; the first line is what a shell reads for `#!`.
    Startable(&'a [u8]),
}

/// What was seen when a run had ended.
#[derive(Clone, Copy, Debug, PartialEq, Eq)]
pub struct Seen<'a> {
    /// The folder in which the program was called.
    pub folder: &'a str,
    /// The bytes of the file that the program's line names, where they can be read.
    pub file: Option<&'a [u8]>,
    /// Where its first fault stands, as far as it was found.
    pub place: Option<Place>,
    pub test: TestSeen<'a>,
    /// Where the documents stand.
    pub documents: &'a str,
}

/// What a person needs beside a status and the line that the program put; nothing where the line says all. `line` has no end of line.
pub fn explanation(
    alloc: Global,
    words: &[String],
    status: u8,
    line: &str,
    seen: Seen<'_>,
) -> Result<String, AllocError> {
    let places = places_of(alloc, words)?;
    let (test, file) = match places.as_slice() {
        [test, file] => (*test, *file),
        _ => ("", ""),
    };
    if is_replay(words) {
        if status == 3 {
            return missing_text(alloc, seen.folder);
        }
    } else if matches!(status, 3 | 4 | 6 | 8) && are_swapped(test, seen.file) {
        return format!(in alloc; "TEST comes first, then FILE: creduce '{file}' '{test}'\n");
    }
    match status {
        2 => words_text(alloc, words, test),
        3 => absent_text(alloc, file, line, seen.folder),
        4 | 5 => refused_text(alloc, line, seen),
        6 => no_text(alloc, test),
        8 => failed_text(alloc, test, line, seen.test),
        9 => format!(in alloc;
            "A file of that name can't be read or written by you, or its disk is full.\n"
        ),
        12 => format!(in alloc;
            "No record of it is lost, and FILE is as it was: --resume goes on with the same words. Another run may have it open, or its disk may be full.\n"
        ),
        13 => journal_text(alloc, file, line, words),
        14 => log_text(alloc, line),
        _ => Ok(String::new(alloc)),
    }
}

// Whether the words ask for a replay, which has no test.
fn is_replay(words: &[String]) -> bool {
    match words.first() {
        Some(word) => word.as_str() == "--replay",
        None => false,
    }
}

// Whether the two words look as if they were the other way round.
fn are_swapped(test: &str, file: Option<&[u8]>) -> bool {
    let is_script = match file {
        Some(bytes) => bytes.starts_with(b"#!"),
        None => false,
    };
    is_script || ((test.ends_with(".c") || test.ends_with(".i")) && !is_text_test(test))
}

// Whether the test is no program.
fn is_text_test(test: &str) -> bool {
    test.starts_with("has:") || test.starts_with("if:")
}

/// The words that are neither options nor their values.
pub fn places_of<'a>(alloc: Global, words: &'a [String]) -> Result<Vec<&'a str>, AllocError> {
    let mut places = Vec::new(alloc);
    let mut is_value = false;
    let mut are_all = false;
    for word in words {
        let word = word.as_str();
        if !are_all && is_flag(word) {
            continue;
        }
        if is_value {
            is_value = false;
        } else if are_all || word.len() < 2 || !word.starts_with("-") {
            places.push(word)?;
        } else if word == "--" {
            are_all = true;
        } else {
            is_value = VALUED.contains(&word);
        }
    }
    Ok(places)
}

fn words_text(alloc: Global, words: &[String], test: &str) -> Result<String, AllocError> {
    match any_fault(alloc, words, test)? {
        Some(fault) => format!(in alloc; "{fault}\ncreduce --help says which words there are.\n"),
        None => format!(in alloc;
            "The words are in no form.\ncreduce --help says which words there are.\n"
        ),
    }
}

fn any_fault(alloc: Global, words: &[String], test: &str) -> Result<Option<String>, AllocError> {
    match word_fault(alloc, words)? {
        Some(fault) => Ok(Some(fault)),
        None => test_fault(alloc, test),
    }
}

fn absent_text(alloc: Global, file: &str, line: &str, folder: &str) -> Result<String, AllocError> {
    if line.ends_with(".orig") {
        return format!(in alloc;
            "--resume goes on from {file}.orig, which has the bytes that were read.\n"
        );
    }
    format!(in alloc; "FILE is looked for from the folder {folder}.\n")
}

fn missing_text(alloc: Global, folder: &str) -> Result<String, AllocError> {
    format!(in alloc;
        "--replay reads FILE.orig, LOG and FILE, all of them from the folder {folder}.\n"
    )
}

fn refused_text(alloc: Global, line: &str, seen: Seen<'_>) -> Result<String, AllocError> {
    let Some(refused) = read_refusal(line) else {
        return Ok(String::new(alloc));
    };
    let mut text = match seen.file {
        Some(file) => refusal_text(
            alloc,
            refused.name,
            file,
            refused.line,
            refused.kind,
            refused.number,
            seen.place,
        )?,
        None => number_text(alloc, refused.kind, refused.number)?,
    };
    if is_of_source(refused.kind) && !text.as_str().contains("creduce-prepare") {
        write!(
            text,
            "creduce-prepare makes a file that creduce takes of a source, where it can, and lists what else stands in the way.\n"
        )?;
    }
    let documents = seen.documents;
    write!(
        text,
        "{documents}/GUIDE.md says what to do about the common ones, {documents}/NUMBERS.md what each number means.\n"
    )?;
    Ok(text)
}

// Whether another preparation of the source may cure it.
fn is_of_source(kind: Kind) -> bool {
    matches!(kind, Kind::Token | Kind::Parse | Kind::Name)
}

// How to try a test as the program does.
fn push_by_hand(text: &mut String, test: &str) -> Result<(), AllocError> {
    let from = if test.starts_with("/") { "" } else { "../" };
    write!(
        text,
        "By hand, on the variant that lies there: (cd creduce-trial-0 && {from}{test}; echo \"status $?\")\n"
    )
}

fn no_text(alloc: Global, test: &str) -> Result<String, AllocError> {
    if let Some(text) = test.strip_prefix("has:") {
        return format!(in alloc; "FILE hasn't the tokens of \"{text}\" side by side.\n");
    }
    if test.starts_with("if:") {
        return format!(in alloc;
            "The formula is false of FILE, by its tokens and by the run that is made of it.\n"
        );
    }
    let mut text = format!(in alloc; "It ended with another status than 0, or by a signal.\n")?;
    push_by_hand(&mut text, test)?;
    Ok(text)
}

fn failed_text(
    alloc: Global,
    test: &str,
    line: &str,
    seen: TestSeen<'_>,
) -> Result<String, AllocError> {
    if !line.starts_with("creduce:") {
        return format!(in alloc;
            "The test failed on a variant, which lies in a folder creduce-trial-K: it ended there with 126 or 127. FILE holds the best so far.\n"
        );
    }
    match seen {
        TestSeen::Absent => return format!(in alloc; "There is no {test}.\n"),
        TestSeen::Folder => return format!(in alloc; "{test} is a folder.\n"),
        TestSeen::Locked => return format!(in alloc;
            "{test} may not be executed: chmod +x '{test}'\n"
        ),
        TestSeen::Startable(first) if first.starts_with(b"#!") => {
            if first.ends_with(b"\r") {
                return format!(in alloc;
                    "The first line of {test} ends with CR LF, so that its interpreter isn't found: sed -i 's/\\r$//' '{test}'\n"
                );
            }
        }
        TestSeen::Startable(_) | TestSeen::Unseen => {}
    }
    let mut text = format!(in alloc;
        "It ended with status 126 or 127, by which a shell says that a program isn't there, or the variant couldn't be written.\n"
    )?;
    if let TestSeen::Startable(first) = seen
        && let Some(interpreter) = interpreter_in(first)
    {
        write!(
            text,
            "Its first line wants {interpreter}: that has to be there too.\n"
        )?;
    }
    push_by_hand(&mut text, test)?;
    Ok(text)
}

// The program that a test's first line names.
fn interpreter_in(first: &[u8]) -> Option<&str> {
    let Ok(line) = str::from_utf8(first) else {
        return None;
    };
    line.strip_prefix("#!")?.trim().split(' ').next()
}

fn journal_text(
    alloc: Global,
    file: &str,
    line: &str,
    words: &[String],
) -> Result<String, AllocError> {
    let record = match line.rsplit_once(' ') {
        Some((_, record)) => record,
        None => "0",
    };
    if record != "0" {
        return format!(in alloc;
            "Record {record} of it is no variant of the file before it, by these --passes and --steps, or isn't in the form.\n"
        );
    }
    if words.iter().any(|word| word.as_str() == "--journal") {
        return format!(in alloc;
            "{file}.journal is there already: go on with it by --resume in the place of --journal, or remove it to begin anew.\n"
        );
    }
    format!(in alloc;
        "Its header isn't in the form, or has other --passes, --steps or --limit, or {file}.orig isn't the file that it began with.\n"
    )
}

fn log_text(alloc: Global, line: &str) -> Result<String, AllocError> {
    let number = match line.rsplit_once(' ') {
        Some((_, number)) => number,
        None => "1",
    };
    format!(in alloc;
        "At line {number} of the log: each line must lead to a lawful, smaller file of its size, with a later turn, and the last one to FILE. The --steps and --passes have to be those of the reduction.\n"
    )
}
