// The conversions of a format, as it is spelled.
ghost use Rattle.std.specs.Prelude.{◌≡◌, ◌<◌, ◌+◌, ◌++◌, length, slice_index, IfOk, OnOk};
ghost use Rattle.pass_output.specs.Conversions.{conversion_at, conversion_by, conversion_if, conversions_of, end_before, is_other, letters_behind_l, letters_by, letters_of, stands_alone, takes_length};

use std::alloc::{AllocError, Global};

/// A conversion: the place of its `%` in the text, the place behind it, and the byte behind its `%`.
#[derive(Clone, Copy, Drop)]
pub struct Conversion {
    pub start: u32,
    pub end: u32,
    pub letter: u8,
}

/// A number that a change keeps. The error is that it is 4,294,967,296 or more.
pub fn number(place: usize) -> Result<u32, AllocError>
    ensures { IfOk result (λ number. number ≡ place) }
{
    match u32::try_from(place) {
        Ok(number) => Ok(number),
        Err(_) => Err(AllocError),
    }
}

/// A sum that a change keeps. The error is that it is 4,294,967,296 or more.
pub fn plus(place: u32, more: u32) -> Result<u32, AllocError>
    ensures { IfOk result (λ sum. sum ≡ place + more) }
{
    match place.checked_add(more) {
        Some(sum) => Ok(sum),
        None => Err(AllocError),
    }
}

// The byte at a place, or 0 where there is none.
fn byte_at(text: &[u8], at: usize) -> u8
    ensures { result ≡ slice_index text.now at }
{
    match text.get(at) {
        Some(byte) => *byte,
        None => 0,
    }
}

fn takes_length(byte: u8) -> bool
    ensures { result ≡ takes_length byte }
{
    matches!(byte, b'd' | b'u' | b'x')
}

fn stands_alone(byte: u8) -> bool
    ensures { result ≡ stands_alone byte }
{
    matches!(byte, b'c' | b's')
}

fn letters_behind_l(second: u8, third: u8) -> u32
    ensures letters { result ≡ letters_behind_l second third }
{
    if takes_length(second) {
        2
    } else if second == b'l' && takes_length(third) {
        3
    } else {
        0
    }
}

fn letters_by(first: u8, second: u8, third: u8) -> u32
    ensures { result ≡ letters_by first second third }
{
    if takes_length(first) || stands_alone(first) {
        1
    } else if first == b'l' {
        letters_behind_l(second, third)
    } else {
        0
    }
}

// How many bytes a conversion has behind its `%`, of those that stand there; none where they begin no conversion.
fn letters_of(behind: &[u8]) -> u32
    ensures { result ≡ letters_of behind.now }
{
    letters_by(byte_at(behind, 0), byte_at(behind, 1), byte_at(behind, 2))
}

fn put_conversion(
    behind: &[u8],
    at: usize,
    conversions: &mut Vec<Conversion>,
) -> Result<(), AllocError>
    ensures { OnOk result (conversions.new.items ≡ conversions.old.items ++ conversion_by behind.now at) }
{
    let letters = letters_of(behind);
    if letters >= 1 {
        let start = number(at)?;
        let end = plus(plus(start, 1)?, letters)?;
        let letter = byte_at(behind, 0);
        conversions.push(Conversion { start, end, letter })?;
    }
    Ok(())
}

fn put_from(
    text: &[u8],
    at: usize,
    is_second: bool,
    conversions: &mut Vec<Conversion>,
) -> Result<(), AllocError>
    requires { at < length text.now }
    ensures { OnOk result (conversions.new.items ≡ conversions.old.items ++ conversion_if is_second text.now at) }
{
    if text[at] == b'%' && !is_second {
        put_conversion(&text[at + 1..], at, conversions)?;
    }
    Ok(())
}

/// All conversions of a text, in order. The error is want of memory.
pub fn conversions_of(alloc: Global, text: &[u8]) -> Result<Vec<Conversion>, AllocError>
    ensures { IfOk result (λ conversions. conversions.items ≡ conversions_of text.now) }
{
    let mut conversions = Vec::new(alloc);
    let mut is_second = false;
    for at in 0..text.len() {
        put_from(text, at, is_second, &mut conversions)?;
        is_second = text[at] == b'%' && !is_second;
    }
    Ok(conversions)
}

/// The conversion of a number. One that isn't there has no bytes.
pub fn conversion_at(conversions: &[Conversion], at: usize) -> Conversion
    ensures { result ≡ conversion_at conversions.now at }
{
    match conversions.get(at) {
        Some(conversion) => *conversion,
        None => Conversion {
            start: 0,
            end: 0,
            letter: 0,
        },
    }
}

/// Where the text before a conversion begins.
pub fn end_before(conversions: &[Conversion], at: usize) -> u32
    ensures { result ≡ end_before conversions.now at }
{
    if at == 0 {
        1
    } else {
        conversion_at(conversions, at - 1).end
    }
}

/// Whether a conversion that begins so is one of an integer other than `%d`.
pub fn is_other(letter: u8) -> bool
    ensures { result ≡ is_other letter }
{
    letter != b'd' && letter != b's'
}
