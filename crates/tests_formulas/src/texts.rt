// Texts of rows.
use std::alloc::{AllocError, Global};

// The byte that a character of a row stands for: `␊` for LF, `␠` for a blank, `∅` for nothing.
fn byte_of(c: char) -> Option<u8> {
    match c {
        '∅' => None,
        '␊' => Some(b'\n'),
        '␠' => Some(b' '),
        '\0'..='\x7f' => Some(c as u8),
        _ => Some(b'?'),
    }
}

/// The bytes that a text of a row stands for.
pub(crate) fn bytes_of(alloc: Global, text: &str) -> Result<Vec<u8>, AllocError> {
    let mut bytes = Vec::new(alloc);
    for c in text.chars() {
        if let Some(byte) = byte_of(c) {
            bytes.push(byte)?;
        }
    }
    Ok(bytes)
}

/// The word that a text of a row stands for.
pub(crate) fn word_of(alloc: Global, text: &str) -> Result<String, AllocError> {
    let bytes = bytes_of(alloc, text)?;
    String::from_str(alloc, std::str::from_utf8(&bytes).unwrap_or(""))
}

/// The words of a text, with blanks between them.
pub(crate) fn words_of(alloc: Global, text: &str) -> Result<Vec<String>, AllocError> {
    let mut words = Vec::new(alloc);
    for word in text.split_whitespace() {
        words.push(word_of(alloc, word)?)?;
    }
    Ok(words)
}
