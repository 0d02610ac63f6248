// The size against the turns, as SVG.
use crate::scale::{Scale, parts_of, scale_of};
use crate::shown::{Escaped, Named};
use std::alloc::{AllocError, Global};

/// Places are in tenths: where the axes meet, and how long each of them is.
const LEFT: u64 = 600;

const BOTTOM: u64 = 3800;

const WIDE: u32 = 7000;

const TALL: u32 = 3600;

/// The two colours.
const BLUE: &str = "#1f5fa8";

const ORANGE: &str = "#c2571a";

/// The picture of a reduction, and beside it another one.
pub fn picture_text(
    alloc: Global,
    one: Named<'_>,
    other: Option<Named<'_>>,
) -> Result<String, AllocError> {
    let scale = scale_of(one, other);
    let mut text = String::new(alloc);
    push_frame(&mut text, scale)?;
    push_course(&mut text, one, scale, BLUE)?;
    write!(
        text,
        "<text x=\"400\" y=\"420\" text-anchor=\"end\" fill=\"{BLUE}\">{}</text>\n",
        Escaped(one.name)
    )?;
    if let Some(other) = other {
        push_course(&mut text, other, scale, ORANGE)?;
        write!(
            text,
            "<text x=\"420\" y=\"420\" fill=\"{ORANGE}\">{}</text>\n",
            Escaped(other.name)
        )?;
    }
    text.push_str("</svg>\n")?;
    Ok(text)
}

// The axes and what they stand for.
fn push_frame(text: &mut String, scale: Scale) -> Result<(), AllocError> {
    let Scale { high, long } = scale;
    text.push_str(
        "<svg xmlns=\"http://www.w3.org/2000/svg\" viewBox=\"0 0 800 440\" font-family=\"sans-serif\" font-size=\"14\">\n",
    )?;
    text.push_str("<rect width=\"800\" height=\"440\" fill=\"white\"/>\n")?;
    text.push_str("<path d=\"M60,20 V380 H760\" fill=\"none\" stroke=\"black\"/>\n")?;
    write!(
        text,
        "<text x=\"52\" y=\"26\" text-anchor=\"end\">{high}</text>"
    )?;
    text.push_str("<text x=\"52\" y=\"384\" text-anchor=\"end\">0</text>\n")?;
    write!(
        text,
        "<text x=\"760\" y=\"400\" text-anchor=\"end\">{long} turns</text>"
    )?;
    text.push_str("<text x=\"20\" y=\"200\">size</text>\n")
}

// The course of a reduction: down where a variant was accepted, and level between.
fn push_course(
    text: &mut String,
    named: Named<'_>,
    scale: Scale,
    colour: &str,
) -> Result<(), AllocError> {
    write!(
        text,
        "<polyline fill=\"none\" stroke=\"{colour}\" stroke-width=\"2\" points=\""
    )?;
    push_point(text, 0, named.of.begun, scale)?;
    let mut size = named.of.begun;
    for one in named.of.accepted.iter() {
        text.push(' ')?;
        push_point(text, one.turn, size, scale)?;
        text.push(' ')?;
        push_point(text, one.turn, one.size, scale)?;
        size = one.size;
    }
    text.push(' ')?;
    push_point(text, named.of.turns, named.of.size, scale)?;
    text.push_str("\"/>\n")
}

fn push_point(text: &mut String, turn: u64, size: u64, scale: Scale) -> Result<(), AllocError> {
    let across = LEFT.saturating_add(parts_of(turn, scale.long, WIDE));
    let down = BOTTOM.saturating_sub(parts_of(size, scale.high, TALL));
    write!(text, "{}.{},", across / 10, across % 10)?;
    write!(text, "{}.{}", down / 10, down % 10)
}
