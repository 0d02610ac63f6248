// Values of options, and names of files.
use std::alloc::{AllocError, Global};

/// What is wrong with an option's value, if anything.
pub fn value_fault(alloc: Global, name: &str, value: &str) -> Result<Option<String>, AllocError> {
    if name == "--passes" {
        if are_letters(value) {
            return Ok(None);
        }
        let text = format!(in alloc;
            "{name} takes different letters of ltbusciprfv and o, and not \"{value}\""
        )?;
        return Ok(Some(text));
    }
    let (least, most): (u64, u64) = match name {
        "--workers" => (1, 32),
        "--window" => (1, 4096),
        "--limit" => (0, 9_223_372_036_854_775_807),
        _ => (1, 100_000_000),
    };
    if is_within(value, least, most) {
        return Ok(None);
    }
    let text = format!(in alloc;
        "{name} takes a number from {least} to {most}, and not \"{value}\""
    )?;
    Ok(Some(text))
}

// Whether these are 1 to 19 digits of a number within the bounds.
fn is_within(value: &str, least: u64, most: u64) -> bool {
    if value.len() > 19 || !value.bytes().all(|b| b.is_ascii_digit()) {
        return false;
    }
    match value.parse::<u64>() {
        Ok(number) => number >= least && number <= most,
        Err(_) => false,
    }
}

// Whether these name passes, each once.
fn are_letters(value: &str) -> bool {
    if value.is_empty() || value.len() > 12 {
        return false;
    }
    for letter in value.bytes() {
        if !is_letter(letter) || stands_twice(value, letter) {
            return false;
        }
    }
    true
}

fn is_letter(letter: u8) -> bool {
    matches!(
        letter,
        b'l' | b't' | b'b' | b'u' | b's' | b'c' | b'i' | b'p' | b'r' | b'f' | b'v' | b'o'
    )
}

fn stands_twice(value: &str, letter: u8) -> bool {
    let mut is_there = false;
    for other in value.bytes() {
        if other == letter {
            if is_there {
                return true;
            }
            is_there = true;
        }
    }
    false
}

/// What is wrong with a label, if anything.
pub fn label_fault(alloc: Global, label: &str) -> Result<Option<String>, AllocError> {
    let is_begun = label.bytes().next().is_some_and(|b| !b.is_ascii_digit());
    if is_begun && label.bytes().all(is_of_name) {
        return Ok(None);
    }
    let text = format!(in alloc; "--reached takes an identifier of C, and not \"{label}\"")?;
    Ok(Some(text))
}

fn is_of_name(byte: u8) -> bool {
    byte.is_ascii_alphanumeric() || byte == b'_'
}

/// What is wrong with a word as the name of a file, or as a generated program, if anything.
pub fn source_fault(alloc: Global, name: &str) -> Result<Option<String>, AllocError> {
    let Some(rest) = name.strip_prefix("gen:") else {
        return name_fault(alloc, name);
    };
    let is_made = match rest.split_once(':') {
        Some((number, items)) => is_within(number, 0, 2_147_483_647) && is_within(items, 1, 10_000),
        None => false,
    };
    if is_made {
        return Ok(None);
    }
    let text = format!(in alloc;
        "FILE \"{name}\" isn't gen:NUMBER:ITEMS, NUMBER from 0 to 2147483647 and ITEMS from 1 to 10000"
    )?;
    Ok(Some(text))
}

/// What is wrong with a word as the name of a file, if anything.
pub fn name_fault(alloc: Global, name: &str) -> Result<Option<String>, AllocError> {
    let last = match name.rsplit_once('/') {
        Some((_, last)) => last,
        None => name,
    };
    if name.starts_with("gen:") || matches!(last, "" | "." | "..") {
        let text = format!(in alloc; "FILE \"{name}\" is no name of a file")?;
        return Ok(Some(text));
    }
    Ok(None)
}
