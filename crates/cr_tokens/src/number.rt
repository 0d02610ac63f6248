ghost use Rattle.std.specs.Prelude.{◌≡◌, ◌↔◌, ◌≤◌, ◌<◌, ◌^◌, ◌+◌, ℕ, IsTrue, IfOk, IfErr, length, min, slice_index};
ghost use Rattle.cr_tokens.specs.Bytes.{Each};
ghost use Rattle.cr_tokens.specs.Numbers.{BeginsNumber, IsNumberPart, IsInteger, IsIntegerOf, IsDigitOf, number_of};
ghost use Rattle.cr_tokens.specs.Numbers.{digit_value as digit_value_lem, base_of as base_of_lem, body_of as body_of_lem};
ghost use Rattle.cr_tokens.specs.Numbers.{radix_of as radix_of_lem, is_unsigned as is_unsigned_lem, limit_of as limit_of_lem};
ghost use Rattle.cr_tokens.specs.Items.{StandsAt};
ghost use Rattle.cr_tokens.specs.Faults.{FaultAt};

use crate::bytes::{
    byte_at, is_among, is_digit, is_hex_digit, is_octal_digit, is_word_byte, run_end,
};
use crate::item::Item;
use crate::token::{Token, TokenFault, TokenKind};

const SUFFIXES: [&[u8]; 23] = [
    b"", b"u", b"U", b"l", b"L", b"ll", b"LL", b"ul", b"uL", b"Ul", b"UL", b"ull", b"uLL", b"Ull",
    b"ULL", b"lu", b"lU", b"Lu", b"LU", b"llu", b"llU", b"LLu", b"LLU",
];

/// How an integer constant's digits are read.
#[derive(Clone, Copy, Debug)]
pub enum Base {
    Decimal,
    Octal,
    Hexadecimal,
}

/// The integer constant at a place where a number begins.
pub fn number_at(file: &[u8], at: usize) -> Result<Item, TokenFault>
    requires inside { at < length file.now }
    requires short { length file.now ≤ 1048576 }
    requires first { BeginsNumber file.now at }
    ensures item { IfOk result (StandsAt file.now at) }
    ensures fault { IfErr result (FaultAt file.now at) }
{
    let end = number_end(file, at);
    if is_integer(&file[at..end]) {
        Ok(Item::Spelled(Token::new(TokenKind::Integer, at, end)))
    } else {
        Err(TokenFault::BadByte(at as u32))
    }
}

fn number_end(file: &[u8], from: usize) -> usize
    requires { from < length file.now }
    ensures after { from < result }
    ensures inside { result ≤ length file.now }
    ensures each { (k : ℕ) → from < k → k < result → IsNumberPart file.now k }
    ensures stop { result < length file.now → ¬ IsNumberPart file.now result }
{
    for at in from + 1..file.len() {
        if !is_number_part(file, at) {
            return at;
        }
    }
    file.len()
}

fn is_number_part(file: &[u8], at: usize) -> bool
    requires after { 0 < at }
    requires inside { at < length file.now }
    ensures { IsTrue result ↔ IsNumberPart file.now at }
{
    match file[at] {
        b'.' => true,
        b'+' | b'-' => matches!(file[at - 1], b'e' | b'E' | b'p' | b'P'),
        byte => is_word_byte(byte),
    }
}

fn is_integer(spelling: &[u8]) -> bool
    ensures { IsTrue result ↔ IsInteger spelling.now }
{
    let base = base_of(spelling);
    let body = body_of(base, spelling);
    is_integer_of(base, body, digits_end(base, body))
}

fn digits_end(base: Base, body: &[u8]) -> usize
    ensures inside { result ≤ length body.now }
    ensures digits { Each (IsDigitOf base) body.now 0 result }
    ensures stop { result < length body.now → ¬ IsDigitOf base (slice_index body.now result) }
{
    match base {
        Base::Decimal => run_end(body, 0, is_digit),
        Base::Octal => run_end(body, 0, is_octal_digit),
        Base::Hexadecimal => run_end(body, 0, is_hex_digit),
    }
}

fn is_integer_of(base: Base, body: &[u8], count: usize) -> bool
    requires inside { count ≤ length body.now }
    requires digits { Each (IsDigitOf base) body.now 0 count }
    ensures { IsTrue result ↔ IsIntegerOf base body.now count }
{
    let suffix = &body[count..];
    count > 0
        && is_among(&SUFFIXES, suffix)
        && number(radix_of(base), &body[..count]) < limit_of(base, is_unsigned(suffix))
}

fn base_of(spelling: &[u8]) -> Base
    ensures { result ≡ base_of_lem spelling.now }
{
    if byte_at(spelling, 0) != b'0' {
        Base::Decimal
    } else if matches!(byte_at(spelling, 1), b'x' | b'X') {
        Base::Hexadecimal
    } else {
        Base::Octal
    }
}

fn body_of(base: Base, spelling: &[u8]) -> &[u8]
    requires { base ≡ base_of_lem spelling.now }
    ensures { result.now ≡ body_of_lem base spelling.now }
{
    match base {
        Base::Decimal | Base::Octal => spelling,
        Base::Hexadecimal => &spelling[2..],
    }
}

fn radix_of(base: Base) -> u8
    ensures { result ≡ radix_of_lem base }
{
    match base {
        Base::Decimal => 10,
        Base::Octal => 8,
        Base::Hexadecimal => 16,
    }
}

fn is_unsigned(suffix: &[u8]) -> bool
    ensures { result ≡ is_unsigned_lem suffix.now }
{
    suffix.iter().any(|byte| *byte == b'u' || *byte == b'U')
}

fn limit_of(base: Base, unsigned: bool) -> u128
    ensures { result ≡ limit_of_lem base unsigned }
{
    match base {
        Base::Decimal if !unsigned => 1 << 63,
        _ => 1 << 64,
    }
}

/// The number that digits spell, or 2^64 where it is not below that.
pub fn number(radix: u8, digits: &[u8]) -> u128
    ensures { result ≡ min (number_of radix digits.now) (2 ^ 64) }
{
    let mut value = 0;
    for digit in digits {
        value = (value * u128::from(radix) + u128::from(digit_value(*digit))).min(1 << 64);
    }
    value
}

fn digit_value(digit: u8) -> u8
    ensures { result ≡ digit_value_lem digit }
{
    match digit {
        0..=57 => digit.saturating_sub(48),
        58..=70 => digit.saturating_sub(55),
        _ => digit.saturating_sub(87),
    }
}
