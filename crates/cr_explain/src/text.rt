// What is said of a number, as lines.
use crate::rows::{Kind, Row, form, row_of};
use std::alloc::{AllocError, Global};

/// A line of prose has at most so many bytes, but for one long word.
const WIDTH: usize = 100;

/// What is said of a number; nothing where it has no row.
pub fn number_text(alloc: Global, kind: Kind, number: u8) -> Result<String, AllocError> {
    let mut text = String::new(alloc);
    if let Some(row) = row_of(kind, number) {
        push_said(alloc, &mut text, kind, number, row)?;
        push_examples(&mut text, kind, row)?;
    }
    Ok(text)
}

/// What is said of one of the nine forms of parse 4.
pub fn form_text(alloc: Global, number: u8) -> Result<String, AllocError> {
    let mut text = String::new(alloc);
    if let Some(row) = form(number) {
        let Row { what, at, .. } = row;
        let (whose, section) = source(row.section);
        write!(
            text,
            "    {number}. {what}; here at {at} ({whose}{section})\n"
        )?;
    }
    Ok(text)
}

/// The number that a word names, as `K37`, `token 2` or `type 37`, where it has a row.
pub fn number_of(word: &str) -> Option<(Kind, u8)> {
    let (kind, rest) = kind_of(word)?;
    let Ok(number) = rest.trim_start().parse::<u8>() else {
        return None;
    };
    row_of(kind, number)?;
    Some((kind, number))
}

// The kind that a word begins with, and what is behind that.
fn kind_of(word: &str) -> Option<(Kind, &str)> {
    if let Some(rest) = word.strip_prefix("token") {
        Some((Kind::Token, rest))
    } else if let Some(rest) = word.strip_prefix("parse") {
        Some((Kind::Parse, rest))
    } else if let Some(rest) = word.strip_prefix("name") {
        Some((Kind::Name, rest))
    } else if let Some(rest) = word.strip_prefix("type") {
        Some((Kind::Type, rest))
    } else if let Some(rest) = word.strip_prefix("K") {
        Some((Kind::Type, rest))
    } else if let Some(rest) = word.strip_prefix("U") {
        Some((Kind::Undefined, rest))
    } else {
        let rest = word.strip_prefix("N")?;
        Some((Kind::Left, rest))
    }
}

// What the number is called, what is wrong, and where C11 says it.
fn push_said(
    alloc: Global,
    text: &mut String,
    kind: Kind,
    number: u8,
    row: Row,
) -> Result<(), AllocError> {
    let mut said = String::new(alloc);
    match kind {
        Kind::Token => write!(said, "token {number}")?,
        Kind::Parse => write!(said, "parse {number}")?,
        Kind::Name => write!(said, "name {number}")?,
        Kind::Type => write!(said, "type {number} is K{number}")?,
        Kind::Undefined => write!(said, "U{number}")?,
        Kind::Left => write!(said, "N{number}")?,
    }
    let Row { what, at, .. } = row;
    write!(said, ": {what}")?;
    if !at.is_empty() {
        write!(said, "; LINE is that of {at}")?;
    }
    let (whose, section) = source(row.section);
    write!(said, " ({whose}{section})")?;
    push_folded(text, said.as_str())
}

fn push_examples(text: &mut String, kind: Kind, row: Row) -> Result<(), AllocError> {
    if row.broken.is_empty() {
        return Ok(());
    }
    let (wrong, right) = match kind {
        Kind::Token | Kind::Parse | Kind::Name => ("at fault:     ", "not at fault: "),
        Kind::Type => ("broken: ", "kept:   "),
        Kind::Undefined => ("undefined: ", "defined:   "),
        Kind::Left => ("left: ", "kept: "),
    };
    let (broken, kept) = (bare(row.broken), bare(row.kept));
    write!(text, "    {wrong}{broken}\n    {right}{kept}\n")
}

// Where it is said: by C11, or by this subset alone.
fn source(section: &'static str) -> (&'static str, &'static str) {
    if section == "own" {
        ("own: a choice of this subset", "")
    } else {
        ("C11 ", section)
    }
}

// An example without the marks of code around it.
fn bare(example: &'static str) -> &'static str {
    match example.strip_prefix("`") {
        Some(rest) => rest.strip_suffix("`").unwrap_or(rest),
        None => example,
    }
}

/// Puts prose as lines of at most 100 bytes, but for one long word.
pub fn push_folded(text: &mut String, prose: &str) -> Result<(), AllocError> {
    let mut wide: usize = 0;
    for word in prose.split(' ') {
        if wide == 0 {
            text.push_str(word)?;
            wide = word.len();
        } else if wide.saturating_add(word.len()) < WIDTH {
            text.push_str(" ")?;
            text.push_str(word)?;
            wide = wide.saturating_add(word.len()).saturating_add(1);
        } else {
            text.push_str("\n")?;
            text.push_str(word)?;
            wide = word.len();
        }
    }
    text.push_str("\n")
}
