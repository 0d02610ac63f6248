// The report: what it sums up to, the table, and the picture.
use crate::cells::{Cell, EMPTY, LEVELS, place_of};
use crate::picture::push_picture;
use crate::reduction::Reduction;
use crate::shown::{Named, Plain};
use std::alloc::{AllocError, Global};

/// The letters of the passes, by their numbers.
const LETTERS: &str = "ltbusciprfvo";

/// What a reduction did, and beside it another one.
pub fn report_text(
    alloc: Global,
    one: Named<'_>,
    other: Option<Named<'_>>,
) -> Result<String, AllocError> {
    let mut text = String::new(alloc);
    push_summary(&mut text, one)?;
    if let Some(other) = other {
        push_summary(&mut text, other)?;
    }
    text.push('\n')?;
    push_table(&mut text, one, other)?;
    text.push('\n')?;
    push_picture(&mut text, one, other)?;
    Ok(text)
}

fn push_summary(text: &mut String, named: Named<'_>) -> Result<(), AllocError> {
    let Reduction {
        size,
        turns,
        vain,
        ..
    } = *named.of;
    write!(text, "{}: size ", Plain(named.name))?;
    match named.of.first {
        None => write!(text, "unknown to {size}")?,
        Some(0) => write!(text, "0 to {size}")?,
        Some(first) => {
            let share = u128::from(size).saturating_mul(100) / u128::from(first);
            write!(text, "{first} to {size} ({share} %)")?;
        }
    }
    let count = named.of.accepted.len();
    write!(text, ", {count} accepted, {turns} turns, ")?;
    match named.of.why {
        Some(why) => write!(text, "the last {vain} in vain, ended {}\n", word(why)),
        None => text.push_str("so far\n"),
    }
}

fn word(why: u8) -> &'static str {
    match why {
        0 => "fixed",
        1 => "limit",
        _ => "fault",
    }
}

fn push_table(
    text: &mut String,
    one: Named<'_>,
    other: Option<Named<'_>>,
) -> Result<(), AllocError> {
    text.push_str("pass level  ")?;
    push_head(text)?;
    if other.is_some() {
        text.push_str("   | ")?;
        push_head(text)?;
    }
    text.push('\n')?;
    for (pass, letter) in LETTERS.chars().enumerate() {
        for level in 0..LEVELS {
            let at = pass.saturating_mul(LEVELS).saturating_add(level);
            push_row(text, letter, level, at, one, other)?;
        }
    }
    Ok(())
}

fn push_head(text: &mut String) -> Result<(), AllocError> {
    write!(text, "{:>8} {:>8} {:>9}", "accepted", "turns", "removed")
}

// The row of a pass and a level, where something was accepted for it.
fn push_row(
    text: &mut String,
    letter: char,
    level: usize,
    at: usize,
    one: Named<'_>,
    other: Option<Named<'_>>,
) -> Result<(), AllocError> {
    if !is_there(one, at) && !other.is_some_and(|other| is_there(other, at)) {
        return Ok(());
    }
    write!(text, "{letter}    {level:>5}  ")?;
    push_cell(text, one, at)?;
    if let Some(other) = other {
        text.push_str("   | ")?;
        push_cell(text, other, at)?;
    }
    text.push('\n')
}

fn cell_at(named: Named<'_>, at: usize) -> Cell {
    named.of.cells.get(at).copied().unwrap_or(EMPTY)
}

fn is_there(named: Named<'_>, at: usize) -> bool {
    cell_at(named, at).accepted > 0
}

fn push_cell(text: &mut String, named: Named<'_>, at: usize) -> Result<(), AllocError> {
    let Cell {
        accepted,
        turns,
        removed,
    } = cell_at(named, at);
    write!(text, "{accepted:>8} {turns:>8} ")?;
    if accepted == 0 || has_unknown(named.of, at) {
        write!(text, "{:>9}", "-")
    } else {
        write!(text, "{removed:>9}")
    }
}

// Whether what the first variant took off is unknown and a part of this cell.
fn has_unknown(of: &Reduction, at: usize) -> bool {
    match (of.first, of.accepted.first()) {
        (None, Some(one)) => place_of(one.at.pass, one.at.level) == at,
        _ => false,
    }
}
