ghost use Rattle.std.specs.Prelude.{◌≡◌, ◌≤◌, ◌^◌, ℕ, min, length, slice_index, take, drop, count_by, position, IfSome};
ghost use Rattle.cr_tokens.specs.Numbers.{number_of, digit_value as digit_value_lem, base_of, body_of as body_of_lem, radix_of, is_unsigned as is_unsigned_lem};
ghost use Rattle.cr_check_constants.specs.Literals.{is_long_letter, is_suffix_letter as is_suffix_letter_lem, digits_of as digits_of_lem, magnitude_of, first_sign as first_sign_lem, reaches as reaches_lem, first_kind as first_kind_lem, integer_of};

use crate::constant::{Constant, Operand};
use cr_ints::IntKind;

/// An integer constant by its spelling (C11 6.4.4.1): its type and its value. It is None where no type of the constant's
/// list has the value; a spelling that is no integer constant is read as if it were one.
pub fn integer(spelling: &[u8]) -> Option<Operand>
    ensures { result ≡ integer_of spelling.now }
{
    let radix = radix(spelling);
    let number = magnitude(radix, digits(body(spelling)));
    match first_kind(radix, is_unsigned(spelling), longs(spelling), number) {
        Some(kind) => Some(Operand {
            kind,
            constant: Constant::Value(number as i128),
        }),
        None => None,
    }
}

fn radix(spelling: &[u8]) -> u8
    ensures { result ≡ radix_of (base_of spelling.now) }
{
    if byte_at(spelling, 0) != b'0' {
        10
    } else if matches!(byte_at(spelling, 1), b'x' | b'X') {
        16
    } else {
        8
    }
}

// The digits and the suffix.
fn body(spelling: &[u8]) -> &[u8]
    ensures { result.now ≡ body_of_lem (base_of spelling.now) spelling.now }
{
    if radix(spelling) == 16 {
        &spelling[2..]
    } else {
        spelling
    }
}

fn digits(body: &[u8]) -> &[u8]
    ensures { result.now ≡ digits_of_lem body.now }
{
    match suffix_at(body) {
        Some(at) => &body[..at],
        None => body,
    }
}

fn suffix_at(body: &[u8]) -> Option<usize>
    ensures place { result ≡ position is_suffix_letter_lem body.now }
    ensures inside { IfSome result (λ at. at ≤ length body.now) }
{
    body.iter().position(|byte| is_suffix_letter(*byte))
}

fn is_suffix_letter(byte: u8) -> bool
    ensures { result ≡ is_suffix_letter_lem byte }
{
    matches!(byte, b'l' | b'L' | b'u' | b'U')
}

// How many letters l the suffix has.
fn longs(spelling: &[u8]) -> usize
    ensures { result ≡ count_by is_long_letter spelling.now }
{
    spelling
        .iter()
        .filter(|byte| **byte == b'l' || **byte == b'L')
        .count()
}

fn is_unsigned(spelling: &[u8]) -> bool
    ensures { result ≡ is_unsigned_lem spelling.now }
{
    spelling.iter().any(|byte| *byte == b'u' || *byte == b'U')
}

/// The number that digits spell, or 2^64 where it is not below that.
pub(crate) fn magnitude(radix: u8, digits: &[u8]) -> u128
    ensures { result ≡ magnitude_of radix digits.now }
{
    let mut value = 0;
    for digit in digits {
        value = (value * u128::from(radix) + u128::from(digit_value(*digit))).min(1 << 64);
    }
    value
}

fn digit_value(digit: u8) -> u8
    ensures { result ≡ digit_value_lem digit }
{
    match digit {
        0..=57 => digit.saturating_sub(48),
        58..=70 => digit.saturating_sub(55),
        _ => digit.saturating_sub(87),
    }
}

/// The byte at a place, or 0 past the end.
pub(crate) fn byte_at(text: &[u8], at: usize) -> u8
    ensures { result ≡ slice_index text.now at }
{
    if at < text.len() { text[at] } else { 0 }
}

#[tactic(auto, unfolding(crate::specs::Literals::first_kind))]
fn first_kind(radix: u8, unsigned: bool, longs: usize, number: u128) -> Option<IntKind>
    requires { number ≤ 2 ^ 64 }
    ensures { result ≡ first_kind_lem radix unsigned longs number }
{
    let int = first_sign(radix, unsigned, IntKind::Int, number);
    let long = first_sign(radix, unsigned, IntKind::Long, number);
    let longest = first_sign(radix, unsigned, IntKind::LLong, number);
    match longs {
        0 => int.or(long.or(longest)),
        1 => long.or(longest),
        _ => longest,
    }
}

// The first of the types that stand for one signed kind.
fn first_sign(radix: u8, unsigned: bool, kind: IntKind, number: u128) -> Option<IntKind>
    requires { number ≤ 2 ^ 64 }
    ensures { result ≡ first_sign_lem radix unsigned number kind }
{
    if !unsigned && reaches(number, kind) {
        Some(kind)
    } else if (unsigned || radix != 10) && reaches(number, kind.to_unsigned()) {
        Some(kind.to_unsigned())
    } else {
        None
    }
}

fn reaches(number: u128, kind: IntKind) -> bool
    requires { number ≤ 2 ^ 64 }
    ensures { result ≡ reaches_lem number kind }
{
    number as i128 <= kind.greatest()
}
