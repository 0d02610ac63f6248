// The space between two spellings.
ghost use Rattle.std.specs.Prelude.{◌≡◌, ◌∷◌, [], slice_index};
ghost use Rattle.cr_tokens.specs.Bytes.{is_among};
ghost use Rattle.cr_tokens.specs.Punctuators.{punctuators};
ghost use Rattle.pass_edit.specs.Space.{goes_on, grows, is_digit, needs_space, sign_grows};

use crate::glue::{first_byte, is_word_byte, last_byte};

/// Whether two spellings side by side would be read otherwise, so that a space stands between them where they are printed.
#[tactic(auto, unfolding(crate::specs::Space::needs_space))]
pub fn needs_space(left: &[u8], right: &[u8]) -> bool
    ensures { result ≡ needs_space left.now right.now }
{
    let first = first_byte(left);
    if is_digit(first) {
        goes_on(last_byte(left), first_byte(right))
    } else if is_word_byte(first) {
        is_word_byte(first_byte(right))
    } else if first == b'"' || first == b'\'' {
        false
    } else {
        sign_grows(left, right)
    }
}

fn is_digit(byte: u8) -> bool
    ensures { result ≡ is_digit byte }
{
    matches!(byte, b'0'..=b'9')
}

fn sign_grows(left: &[u8], right: &[u8]) -> bool
    ensures { result ≡ sign_grows left.now right.now }
{
    match left.len() {
        1 => grows(byte_at(left, 0), byte_at(right, 0), byte_at(right, 1)),
        2 => is_three(byte_at(left, 0), byte_at(left, 1), byte_at(right, 0)),
        _ => false,
    }
}

// The byte at a place, or 0 where there is none.
fn byte_at(text: &[u8], at: usize) -> u8
    ensures { result ≡ slice_index text.now at }
{
    match text.get(at) {
        Some(byte) => *byte,
        None => 0,
    }
}

fn goes_on(last: u8, next: u8) -> bool
    ensures { result ≡ goes_on last next }
{
    is_word_byte(next)
        || next == b'.'
        || matches!(next, b'+' | b'-') && matches!(last, b'e' | b'E' | b'p' | b'P')
}

fn grows(sign: u8, next: u8, after: u8) -> bool
    ensures { result ≡ grows sign next after }
{
    match sign {
        b'.' => matches!(next, b'0'..=b'9') || next == b'.' && after == b'.',
        b'/' => matches!(next, b'=' | b'/' | b'*'),
        _ => is_two(sign, next),
    }
}

fn is_two(first: u8, second: u8) -> bool
    ensures { result ≡ is_among punctuators (first ∷ second ∷ []) }
{
    match first {
        b'-' => second == b'>' || second == b'-' || second == b'=',
        b'+' => second == b'+' || second == b'=',
        b'<' => second == b'<' || second == b'=',
        b'>' => second == b'>' || second == b'=',
        b'&' => second == b'&' || second == b'=',
        b'|' => second == b'|' || second == b'=',
        b'=' | b'!' | b'*' | b'/' | b'%' | b'^' => second == b'=',
        _ => false,
    }
}

fn is_three(first: u8, second: u8, third: u8) -> bool
    ensures { result ≡ is_among punctuators (first ∷ second ∷ third ∷ []) }
{
    match first {
        b'.' => second == b'.' && third == b'.',
        b'<' => second == b'<' && third == b'=',
        b'>' => second == b'>' && third == b'=',
        _ => false,
    }
}
