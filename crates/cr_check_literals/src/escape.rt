// The characters of literals.
ghost use Rattle.std.specs.Prelude.{◌≡◌, ◌+◌, ◌<◌, ◌≤◌, ◌++◌, IfOk, OnOk, drop, length, slice_index, take};
ghost use Rattle.std.specs.List.{prefix_len};
ghost use Rattle.cr_tokens.specs.Numbers.{digit_value as digit_value_of};
ghost use Rattle.cr_check_constants.specs.Literals.{code_of, escape_of, magnitude_of, simple_escape_of};
ghost use Rattle.cr_check_literals.specs.Characters.{byte_of, bytes_behind, bytes_of, escaped_of, further_of, is_hexadecimal_digit as is_hexadecimal_digit_of, is_octal_digit as is_octal_digit_of};

use std::alloc::AllocError;

fn byte_at(text: &[u8], at: usize) -> u8
    ensures { result ≡ slice_index text.now at }
{
    if at < text.len() { text[at] } else { 0 }
}

fn is_octal_digit(byte: u8) -> bool
    ensures { result ≡ is_octal_digit_of byte }
{
    matches!(byte, b'0'..=b'7')
}

fn is_hexadecimal_digit(byte: u8) -> bool
    ensures { result ≡ is_hexadecimal_digit_of byte }
{
    matches!(byte, b'0'..=b'9' | b'A'..=b'F' | b'a'..=b'f')
}

fn octal_digits(text: &[u8]) -> usize
    ensures count { result ≡ prefix_len is_octal_digit_of text.now }
    ensures inside { result ≤ length text.now }
{
    let mut count = 0;
    while count < text.len() && is_octal_digit(text[count]) {
        count += 1;
    }
    count
}

fn hexadecimal_digits(text: &[u8]) -> usize
    ensures count { result ≡ prefix_len is_hexadecimal_digit_of text.now }
    ensures inside { result ≤ length text.now }
{
    let mut count = 0;
    while count < text.len() && is_hexadecimal_digit(text[count]) {
        count += 1;
    }
    count
}

// How many bytes behind its backslash belong to an escape sequence.
fn escaped(behind: &[u8]) -> usize
    ensures { result ≡ escaped_of behind.now }
{
    match byte_at(behind, 0) {
        b'x' => 1 + hexadecimal_digits(&behind[1..]),
        b'0'..=b'7' => octal_digits(behind).min(3),
        _ => 1,
    }
}

// How many bytes behind its first one belong to a character.
fn further(inside: &[u8]) -> usize
    ensures { result ≡ further_of inside.now }
{
    match byte_at(inside, 0) {
        b'\\' => escaped(&inside[1..]),
        _ => 0,
    }
}

fn digit_value(digit: u8) -> u8
    ensures { result ≡ digit_value_of digit }
{
    match digit {
        0..=57 => digit.saturating_sub(48),
        58..=70 => digit.saturating_sub(55),
        _ => digit.saturating_sub(87),
    }
}

// The number that digits spell, or 2^64 where it is not below that.
fn magnitude(radix: u8, digits: &[u8]) -> u128
    ensures { result ≡ magnitude_of radix digits.now }
{
    let mut value = 0;
    for digit in digits {
        value = (value * u128::from(radix) + u128::from(digit_value(*digit))).min(1 << 64);
    }
    value
}

fn simple_escape(letter: u8) -> u8
    ensures { result ≡ simple_escape_of letter }
{
    match letter {
        b'a' => 7,
        b'b' => 8,
        b'f' => 12,
        b'n' => 10,
        b'r' => 13,
        b't' => 9,
        b'v' => 11,
        other => other,
    }
}

fn escape(behind: &[u8]) -> u128
    ensures { result ≡ escape_of behind.now }
{
    match byte_at(behind, 0) {
        b'x' => magnitude(16, &behind[1..]),
        b'0'..=b'7' => magnitude(8, behind),
        letter => u128::from(simple_escape(letter)),
    }
}

fn code(character: &[u8]) -> u128
    ensures { result ≡ code_of character.now }
{
    match byte_at(character, 0) {
        b'\\' => escape(&character[1..]),
        byte => u128::from(byte),
    }
}

// The first character, by how many bytes it has behind its first one; all where there are fewer.
fn character(inside: &[u8], further: usize) -> &[u8]
    ensures { result.now ≡ take (further + 1) inside.now }
{
    if further < inside.len() {
        &inside[..further + 1]
    } else {
        inside
    }
}

fn byte(inside: &[u8], further: usize) -> u8
    requires { further ≡ further_of inside.now }
    ensures { result ≡ byte_of inside.now }
{
    let code = code(character(inside, further));
    code.min(255) as u8
}

// One byte further: how many bytes behind it belong to the same character.
#[tactic(auto, using(crate::proofs::Characters::belongs))]
fn put_first(
    bytes: &mut Vec<u8>,
    inside: &[u8],
    at: usize,
    left: usize,
) -> Result<usize, AllocError>
    requires { at < length inside.now }
    ensures { IfOk result (λ more. bytes.new.items ++ bytes_behind more (drop (at + 1) inside.now) ≡ bytes.old.items ++ bytes_behind left (drop at inside.now)) }
{
    if left > 0 {
        return Ok(left - 1);
    }
    let more = further(&inside[at..]);
    bytes.push(byte(&inside[at..], more))?;
    Ok(more)
}

/// Puts the bytes of all characters behind others. The error is want of memory.
pub(crate) fn put_bytes(bytes: &mut Vec<u8>, inside: &[u8]) -> Result<(), AllocError>
    ensures { OnOk result (bytes.new.items ≡ bytes.old.items ++ bytes_of inside.now) }
{
    let mut left = 0;
    for at in 0..inside.len() {
        left = put_first(bytes, inside, at, left)?;
    }
    Ok(())
}
