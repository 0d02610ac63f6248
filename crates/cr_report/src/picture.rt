// The size against the turns, drawn with characters.
use crate::reduction::Reduction;
use crate::scale::{Scale, parts_of, scale_of, size_at};
use crate::shown::{Named, Plain};
use std::alloc::AllocError;

/// How many lines the picture has above its axis, and between how many columns its width is.
const TALL: u32 = 16;

const WIDE: u32 = 71;

/// Puts the picture.
pub fn push_picture(
    text: &mut String,
    one: Named<'_>,
    other: Option<Named<'_>>,
) -> Result<(), AllocError> {
    let scale = scale_of(one, other);
    for below in 0..TALL {
        let line = TALL - 1 - below;
        push_label(text, scale, line)?;
        push_line(text, one, other, scale, u64::from(line))?;
        text.push('\n')?;
    }
    push_axis(text, scale.long)?;
    match other {
        Some(other) => write!(
            text,
            "          * {}, o {}\n",
            Plain(one.name),
            Plain(other.name)
        ),
        None => Ok(()),
    }
}

// What the highest and the lowest line stand for.
fn push_label(text: &mut String, scale: Scale, line: u32) -> Result<(), AllocError> {
    let high = scale.high;
    if line == TALL - 1 {
        write!(text, "{high:>8} |")
    } else if line == 0 {
        write!(text, "{:>8} |", 0)
    } else {
        write!(text, "{:>8} |", "")
    }
}

// The marks of one line, without blanks behind the last of them.
fn push_line(
    text: &mut String,
    one: Named<'_>,
    other: Option<Named<'_>>,
    scale: Scale,
    line: u64,
) -> Result<(), AllocError> {
    let mut blanks: u32 = 0;
    for column in 0..=WIDE {
        match mark_at(one, other, scale, column, line) {
            None => blanks = blanks.saturating_add(1),
            Some(mark) => {
                for _ in 0..blanks {
                    text.push(' ')?;
                }
                blanks = 0;
                text.push(mark)?;
            }
        }
    }
    Ok(())
}

fn mark_at(
    one: Named<'_>,
    other: Option<Named<'_>>,
    scale: Scale,
    column: u32,
    line: u64,
) -> Option<char> {
    if is_at(one.of, scale, column, line) {
        Some('*')
    } else if other.is_some_and(|other| is_at(other.of, scale, column, line)) {
        Some('o')
    } else {
        None
    }
}

// Whether a reduction goes through this line at this column.
fn is_at(of: &Reduction, scale: Scale, column: u32, line: u64) -> bool {
    let turns = u128::from(scale.long).saturating_mul(u128::from(column));
    if turns > u128::from(of.turns).saturating_mul(u128::from(WIDE)) {
        return false;
    }
    parts_of(size_at(of, turns, WIDE), scale.high, TALL - 1) == line
}

fn push_axis(text: &mut String, long: u64) -> Result<(), AllocError> {
    write!(text, "{:>8} +", "size")?;
    for _ in 0..=WIDE {
        text.push('-')?;
    }
    write!(text, "\n{:>8}  0{long:>71} turns\n", "")
}
