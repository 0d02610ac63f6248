ghost use Rattle.std.specs.Prelude.{◌≡◌, ◌≢◌, ◌↔◌, ◌≤◌, ◌<◌, ◌+◌, ℕ, IsTrue, IsSome, IfSome, IfNone, IfOk, IfErr, length, slice_index};
ghost use Rattle.cr_tokens.specs.Bytes.{is_byte_of};
ghost use Rattle.cr_tokens.specs.Literals.{Chars, EndsCharacters, IsTrigraph, IsBroken, IsEscape, IsOctalEscape, IsHexEscape, IsUnit, IsChar, IsPlain, trigraph_ends, simple_escapes};
ghost use Rattle.cr_tokens.specs.Items.{StandsAt};
ghost use Rattle.cr_tokens.specs.Faults.{IsQuote, IsBadChar, IsBadAmong, FaultAt};

use crate::blank::is_splice;
use crate::bytes::{byte_at, is_hex_digit, is_octal_digit, run_end};
use crate::item::Item;
use crate::number::number;
use crate::token::{Token, TokenFault, TokenKind};

/// The characters of a literal: where they end, and how many they are.
#[derive(Clone, Copy, Debug)]
struct Characters {
    end: usize,
    count: usize,
}

/// The character constant or string literal at a quote.
pub fn literal_at(file: &[u8], at: usize) -> Result<Item, TokenFault>
    requires inside { at < length file.now }
    requires short { length file.now ≤ 1048576 }
    requires quote { IsQuote (slice_index file.now at) }
    ensures item { IfOk result (StandsAt file.now at) }
    ensures fault { IfErr result (FaultAt file.now at) }
{
    let quote = file[at];
    let body = characters_at(file, quote, at + 1)?;
    if byte_at(file, body.end) != quote {
        return Err(TokenFault::OpenLiteral(at as u32));
    }
    if quote == b'"' {
        return Ok(Item::Spelled(Token::new(TokenKind::Text, at, body.end + 1)));
    }
    if body.count != 1 {
        return Err(TokenFault::BadByte(at as u32));
    }
    Ok(Item::Spelled(Token::new(TokenKind::Character, at, body.end + 1)))
}

/// The characters from a place on, up to the quote, the end of the line or the end of the file.
fn characters_at(file: &[u8], quote: u8, from: usize) -> Result<Characters, TokenFault>
    requires inside { from ≤ length file.now }
    requires short { length file.now ≤ 1048576 }
    ensures characters { IfOk result (λ r. Chars file.now quote from r.end r.count) }
    ensures inside { IfOk result (λ r. (from ≤ r.end) × (r.end ≤ length file.now)) }
    ensures stop { IfOk result (λ r. EndsCharacters file.now quote r.end) }
    ensures fault { IfErr result (IsBadAmong file.now quote from) }
{
    let mut end = from;
    let mut count: usize = 0;
    while !ends_characters(file, quote, end) {
        end = char_end(file, quote, end)?;
        count += 1;
    }
    Ok(Characters { end, count })
}

fn ends_characters(file: &[u8], quote: u8, at: usize) -> bool
    requires { at ≤ length file.now }
    ensures { IsTrue result ↔ EndsCharacters file.now quote at }
{
    at >= file.len() || file[at] == quote || file[at] == b'\n'
}

/// Where the character of a literal ends that begins at a place.
fn char_end(file: &[u8], quote: u8, at: usize) -> Result<usize, TokenFault>
    requires inside { at < length file.now }
    requires short { length file.now ≤ 1048576 }
    requires no_quote { slice_index file.now at ≢ quote }
    requires no_end { slice_index file.now at ≢ 10 }
    ensures char { IfOk result (IsChar file.now quote at) }
    ensures some { IfOk result (λ to. (at < to) × (to ≤ length file.now)) }
    ensures fault { IfErr result (λ e. (bad : ℕ) × (e ≡ TokenFault.BadByte bad) × IsBadChar file.now quote at bad) }
{
    let Some(end) = unit_end(file, quote, at) else {
        return Err(TokenFault::BadByte(at as u32));
    };
    match first_broken(file, at, end) {
        Some(bad) => Err(TokenFault::BadByte(bad as u32)),
        None => Ok(end),
    }
}

/// The first place from `from` to before `to` at which a trigraph or a spliced line begins.
fn first_broken(file: &[u8], from: usize, to: usize) -> Option<usize>
    requires order { from ≤ to }
    requires inside { to ≤ length file.now }
    ensures range { IfSome result (λ bad. (from ≤ bad) × (bad < to)) }
    ensures broken { IfSome result (IsBroken file.now) }
    ensures first { IfSome result (λ bad. (k : ℕ) → from ≤ k → k < bad → ¬ IsBroken file.now k) }
    ensures none { IfNone result ((k : ℕ) → from ≤ k → k < to → ¬ IsBroken file.now k) }
{
    for at in from..to {
        if is_broken(file, at) {
            return Some(at);
        }
    }
    None
}

fn is_broken(file: &[u8], at: usize) -> bool
    requires { at < length file.now }
    ensures { IsTrue result ↔ IsBroken file.now at }
{
    is_trigraph(file, at) || is_splice(file, at)
}

fn is_trigraph(file: &[u8], at: usize) -> bool
    requires { at < length file.now }
    ensures { IsTrue result ↔ IsTrigraph file.now at }
{
    file[at] == b'?' && byte_at(file, at + 1) == b'?' && ends_trigraph(byte_at(file, at + 2))
}

fn ends_trigraph(byte: u8) -> bool
    ensures { result ≡ is_byte_of trigraph_ends byte }
{
    matches!(
        byte,
        b'=' | b'(' | b'/' | b')' | b'\'' | b'<' | b'!' | b'>' | b'-'
    )
}

/// Where the plain byte or the escape sequence ends that begins at a place.
fn unit_end(file: &[u8], quote: u8, at: usize) -> Option<usize>
    requires { at < length file.now }
    ensures unit { IfSome result (IsUnit file.now quote at) }
    ensures some { IfSome result (λ to. (at < to) × (to ≤ length file.now)) }
    ensures none { IfNone result ((to : ℕ) → ¬ IsUnit file.now quote at to) }
{
    if file[at] == b'\\' {
        return escape_end(file, at);
    }
    if is_plain(quote, file[at]) {
        Some(at + 1)
    } else {
        None
    }
}

fn is_plain(quote: u8, byte: u8) -> bool
    ensures { IsTrue result ↔ IsPlain quote byte }
{
    let in_range = matches!(byte, 32..=126) || quote == b'"' && byte >= 128;
    in_range && byte != quote && byte != b'\\'
}

/// Where the escape sequence ends that begins at a backslash.
fn escape_end(file: &[u8], at: usize) -> Option<usize>
    requires inside { at < length file.now }
    requires backslash { slice_index file.now at ≡ 92 }
    ensures escape { IfSome result (IsEscape file.now at) }
    ensures some { IfSome result (λ to. (at < to) × (to ≤ length file.now)) }
    ensures none { IfNone result ((to : ℕ) → ¬ IsEscape file.now at to) }
{
    let next = byte_at(file, at + 1);
    if is_simple_escape(next) {
        Some(at + 2)
    } else if next == b'x' {
        hex_escape_end(file, at)
    } else {
        octal_escape_end(file, at)
    }
}

fn is_simple_escape(byte: u8) -> bool
    ensures { result ≡ is_byte_of simple_escapes byte }
{
    matches!(
        byte,
        b'\'' | b'"' | b'?' | b'\\' | b'a' | b'b' | b'f' | b'n' | b'r' | b't' | b'v'
    )
}

fn octal_escape_end(file: &[u8], at: usize) -> Option<usize>
    requires { at < length file.now }
    ensures escape { IfSome result (IsOctalEscape file.now at) }
    ensures some { IfSome result (λ to. (at < to) × (to ≤ length file.now)) }
    ensures none { IfNone result ((to : ℕ) → ¬ IsOctalEscape file.now at to) }
{
    let end = run_end(file, at + 1, is_octal_digit).min(at + 4);
    if end <= at + 1 {
        return None;
    }
    if number(8, &file[at + 1..end]) > 255 {
        return None;
    }
    Some(end)
}

fn hex_escape_end(file: &[u8], at: usize) -> Option<usize>
    requires inside { at + 1 < length file.now }
    requires letter { slice_index file.now (at + 1) ≡ 120 }
    ensures escape { IfSome result (IsHexEscape file.now at) }
    ensures some { IfSome result (λ to. (at < to) × (to ≤ length file.now)) }
    ensures none { IfNone result ((to : ℕ) → ¬ IsHexEscape file.now at to) }
{
    let end = run_end(file, at + 2, is_hex_digit);
    if end <= at + 2 {
        return None;
    }
    if number(16, &file[at + 2..end]) > 255 {
        return None;
    }
    Some(end)
}
