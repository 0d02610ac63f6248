// Texts put side by side, so that no two words become one.
ghost use Rattle.std.specs.Prelude.{◌≡◌, ◌<◌, ◌≤◌, [], ◌∷◌, if◌then◌else◌, length, vec_capacity, OnOk, OnErr};
ghost use Rattle.pass_edit.specs.Glue.{first_byte, glued, is_word_byte, last_byte, seam};

use std::alloc::AllocError;

/// Whether a byte is a letter, a digit or an underscore.
pub fn is_word_byte(byte: u8) -> bool
    ensures { result ≡ is_word_byte byte }
{
    matches!(byte, b'a'..=b'z' | b'A'..=b'Z' | b'0'..=b'9' | b'_')
}

/// The first byte, or 0 where there is none.
pub fn first_byte(text: &[u8]) -> u8
    ensures { result ≡ first_byte text.now }
{
    match text.first() {
        Some(byte) => *byte,
        None => 0,
    }
}

/// The last byte, or 0 where there is none.
pub fn last_byte(text: &[u8]) -> u8
    ensures { result ≡ last_byte text.now }
{
    match text.last() {
        Some(byte) => *byte,
        None => 0,
    }
}

fn words_meet(front: &[u8], back: &[u8]) -> bool
    ensures { seam front.now back.now ≡ (if result then 32 ∷ [] else []) }
{
    is_word_byte(last_byte(front)) && is_word_byte(first_byte(back))
}

/// Puts a text behind another one, with one space where two words would meet. The error is want of memory; a part may be there then.
pub fn put(out: &mut Vec<u8>, back: &[u8]) -> Result<(), AllocError>
    ensures glued { OnOk result (out.new.items ≡ glued out.old.items back.now) }
    ensures capacity { vec_capacity out.old ≤ vec_capacity out.new }
    ensures full { OnErr result (vec_capacity out.old < length (glued out.old.items back.now)) }
{
    if words_meet(out.as_slice(), back) {
        out.push(b' ')?;
    }
    out.extend_from_slice(back)
}
