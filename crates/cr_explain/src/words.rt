// Why a list of words asks for nothing.
use crate::formulas::formula_fault;
use crate::options::{REACHED, VALUED, is_flag, label_in, unknown_option};
use crate::values::{label_fault, name_fault, source_fault, value_fault};
use std::alloc::{AllocError, Global};

// The words, told apart so far.
#[derive(Drop)]
struct Told<'a> {
    is_replay: bool,
    places: Vec<&'a str>,
    flags: Vec<&'a str>,
    options: Vec<&'a str>,
    /// The option whose value is the next word.
    awaiting: Option<&'a str>,
    /// Behind `--` no word is an option.
    are_places: bool,
}

/// Why these words ask for nothing, whatever TEST's tokens or formula are: the first word that is in no form, with a remedy. The program's own
/// reader decides; `tests_words` compares the two.
pub fn word_fault(alloc: Global, words: &[String]) -> Result<Option<String>, AllocError> {
    let is_replay = match words.first() {
        Some(first) => first.as_str() == "--replay",
        None => false,
    };
    let mut told = Told {
        is_replay,
        places: Vec::new(alloc),
        flags: Vec::new(alloc),
        options: Vec::new(alloc),
        awaiting: None,
        are_places: false,
    };
    for (at, word) in words.iter().enumerate() {
        if is_replay && at == 0 {
            continue;
        }
        let next = match words.get(at.saturating_add(1)) {
            Some(next) => Some(next.as_str()),
            None => None,
        };
        if let Some(text) = one_word(alloc, &mut told, word.as_str(), next)? {
            return Ok(Some(text));
        }
    }
    whole_fault(alloc, &told)
}

// What is wrong with all of them, where each is in a form.
fn whole_fault(alloc: Global, told: &Told<'_>) -> Result<Option<String>, AllocError> {
    if let Some(name) = told.awaiting {
        return Ok(Some(format!(in alloc; "{name} has no value")?));
    }
    if let Some(text) = modes_fault(alloc, told)? {
        return Ok(Some(text));
    }
    if told.is_replay {
        replay_fault(alloc, &told.places)
    } else {
        places_fault(alloc, &told.places)
    }
}

// Takes one word, and answers what is wrong with it, if anything.
fn one_word<'a>(
    alloc: Global,
    told: &mut Told<'a>,
    word: &'a str,
    next: Option<&'a str>,
) -> Result<Option<String>, AllocError> {
    // A flag is one in a value's place too.
    if may_be_flag(told) && is_flag(word) {
        told.flags.push(word)?;
        return Ok(None);
    }
    if let Some(name) = told.awaiting {
        told.awaiting = None;
        return value_fault(alloc, name, word);
    }
    if told.are_places || word.len() < 2 || !word.starts_with("-") {
        told.places.push(word)?;
        return Ok(None);
    }
    if word == "--" {
        told.are_places = true;
        return Ok(None);
    }
    one_option(alloc, told, word, next)
}

fn may_be_flag(told: &Told<'_>) -> bool {
    !told.is_replay && !told.are_places
}

// Takes an option's word.
fn one_option<'a>(
    alloc: Global,
    told: &mut Told<'a>,
    word: &'a str,
    next: Option<&'a str>,
) -> Result<Option<String>, AllocError> {
    let (name, value) = match word.split_once('=') {
        Some((name, value)) => (name, Some(value)),
        None => (word, None),
    };
    if !is_option(told.is_replay, name) {
        if told.is_replay && (VALUED.contains(&name) || is_flag(word)) {
            return Ok(Some(format!(in alloc; "{name} doesn't stand with --replay")?));
        }
        return Ok(Some(unknown_option(alloc, word, next)?));
    }
    if told.options.as_slice().contains(&name) {
        return Ok(Some(format!(in alloc; "{name} stands twice")?));
    }
    told.options.push(name)?;
    match value {
        Some(value) => value_fault(alloc, name, value),
        None => {
            told.awaiting = Some(name);
            Ok(None)
        }
    }
}

fn is_option(is_replay: bool, name: &str) -> bool {
    if is_replay {
        matches!(name, "--steps" | "--passes")
    } else {
        VALUED.contains(&name)
    }
}

// Why no run is asked for by these flags together, or with this FILE.
fn modes_fault(alloc: Global, told: &Told<'_>) -> Result<Option<String>, AllocError> {
    let flags = told.flags.as_slice();
    if flags.contains(&"--journal") && flags.contains(&"--resume") {
        let text = format!(in alloc;
            "--journal begins a journal and --resume goes on with one: only one of them may stand"
        )?;
        return Ok(Some(text));
    }
    for flag in flags {
        if stands_twice(flags, flag) {
            return Ok(Some(format!(in alloc; "{flag} stands twice")?));
        }
    }
    if let Some(text) = labels_fault(alloc, flags)? {
        return Ok(Some(text));
    }
    let keeps = flags.contains(&"--journal") || flags.contains(&"--resume");
    if keeps && flags.contains(&"--standing") {
        let text = format!(in alloc; "a journal and --standing don't go together")?;
        return Ok(Some(text));
    }
    match told.places.get(1) {
        Some(file) if keeps && file.starts_with("gen:") => {
            Ok(Some(format!(in alloc; "a generated program has no journal")?))
        }
        _ => Ok(None),
    }
}

// What is wrong with the labels that are to be reached.
fn labels_fault(alloc: Global, flags: &[&str]) -> Result<Option<String>, AllocError> {
    let mut labels = Vec::new(alloc);
    for flag in flags {
        if let Some(label) = label_in(flag) {
            labels.push(label)?;
        }
    }
    match labels.as_slice() {
        [] => Ok(None),
        [label] => label_fault(alloc, label),
        _ => Ok(Some(format!(in alloc; "{REACHED} stands twice")?)),
    }
}

fn stands_twice(flags: &[&str], flag: &str) -> bool {
    let mut is_there = false;
    for other in flags {
        if *other == flag {
            if is_there {
                return true;
            }
            is_there = true;
        }
    }
    false
}

// What is wrong with TEST and FILE.
fn places_fault(alloc: Global, places: &Vec<&str>) -> Result<Option<String>, AllocError> {
    let [test, file] = places.as_slice() else {
        return Ok(Some(count_fault(alloc, places.as_slice())?));
    };
    if test.is_empty() {
        return Ok(Some(format!(in alloc; "TEST is an empty word")?));
    }
    source_fault(alloc, file)
}

/// Why a TEST that is refused, and is no program, is in no form: its tokens or its formula.
pub fn test_fault(alloc: Global, test: &str) -> Result<Option<String>, AllocError> {
    if test.starts_with("has:") {
        let text = format!(in alloc;
            "the text of \"{test}\" isn't made of one or more whole tokens of C"
        )?;
        return Ok(Some(text));
    }
    match test.strip_prefix("if:") {
        Some(formula) => Ok(Some(formula_fault(alloc, formula)?)),
        None => Ok(None),
    }
}

fn count_fault(alloc: Global, places: &[&str]) -> Result<String, AllocError> {
    match places {
        [] => format!(in alloc; "TEST and FILE are missing"),
        [one] => format!(in alloc; "TEST and FILE are two words, and here is only \"{one}\""),
        [_, _, more, ..] => format!(in alloc;
            "TEST and FILE are two words, and \"{more}\" is one more"
        ),
        _ => format!(in alloc; "TEST and FILE are two words"),
    }
}

// What is wrong with LOG and FILE of a replay.
fn replay_fault(alloc: Global, places: &Vec<&str>) -> Result<Option<String>, AllocError> {
    let [log, file] = places.as_slice() else {
        let count = places.len();
        let text = format!(in alloc; "LOG and FILE are two words, and here are {count}")?;
        return Ok(Some(text));
    };
    match name_fault(alloc, log)? {
        Some(text) => Ok(Some(text)),
        None => name_fault(alloc, file),
    }
}
