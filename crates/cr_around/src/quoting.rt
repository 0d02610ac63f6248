// Words as a shell takes them, and names as they are shown.
use std::alloc::{AllocError, Global};
use std::fmt::{self, Display, Formatter, Write};

/// A word as a shell takes it: as it is where it is made of plain characters, else in quotation marks.
pub fn quoted(alloc: Global, word: &str) -> Result<String, AllocError> {
    if !word.is_empty() && word.bytes().all(is_plain) {
        return String::from_str(alloc, word);
    }
    let mut text = String::from_str(alloc, "'")?;
    for c in word.chars() {
        if c == '\'' {
            text.push_str("'\\''")?;
        } else {
            text.push(c)?;
        }
    }
    text.push('\'')?;
    Ok(text)
}

// What has no meaning to a shell, wherever it stands.
fn is_plain(byte: u8) -> bool {
    byte.is_ascii_alphanumeric() || b"_-./:,+@%=".contains(&byte)
}

/// A text on one line: what controls a terminal is shown as a question mark.
#[derive(Clone, Copy)]
pub struct Plain<'a>(pub &'a str);

impl Display for Plain<'_> {
    fn fmt<W: Write>(&self, f: &mut Formatter<W>) -> fmt::Result {
        for c in self.0.chars() {
            f.write_char(if c.is_control() { '?' } else { c })?;
        }
        Ok(())
    }
}
