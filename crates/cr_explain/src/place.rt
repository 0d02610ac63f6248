// Where a fault stands.

/// Bytes of a file, from `start` to before `end`.
#[derive(Clone, Copy, Debug, PartialEq, Eq)]
pub struct Place {
    pub start: usize,
    pub end: usize,
    /// Of parse 4, which of its nine forms it is; else 0.
    pub form: u8,
    /// Of parse 1, the bytes of a word in front of it that C11 hasn't, or that stands where a type is wanted and is none.
    pub cause: Option<(usize, usize)>,
    /// Of parse 1, whether an identifier stands there.
    pub is_name: bool,
}

impl Place {
    /// The word that may be the cause, where there is one.
    pub fn cause_text<'a>(&self, file: &'a [u8]) -> Option<&'a str> {
        let (start, end) = self.cause?;
        text_at(file, start, end)
    }

    /// The bytes there, where they are a text.
    pub fn text<'a>(&self, file: &'a [u8]) -> Option<&'a str> {
        text_at(file, self.start, self.end)
    }

    /// The bytes in front of it.
    pub fn before<'a>(&self, file: &'a [u8]) -> &'a [u8] {
        match file.get(..self.start) {
            Some(bytes) => bytes,
            None => &[],
        }
    }

    /// The bytes behind it.
    pub fn behind<'a>(&self, file: &'a [u8]) -> &'a [u8] {
        match file.get(self.end..) {
            Some(bytes) => bytes,
            None => &[],
        }
    }

    /// The bytes from there on.
    pub fn onward<'a>(&self, file: &'a [u8]) -> &'a [u8] {
        match file.get(self.start..) {
            Some(bytes) => bytes,
            None => &[],
        }
    }
}

/// These bytes of a file, where they are a text.
pub fn text_at(file: &[u8], start: usize, end: usize) -> Option<&str> {
    let bytes = file.get(start..end)?;
    match str::from_utf8(bytes) {
        Ok(text) => Some(text),
        Err(_) => None,
    }
}

/// The four functions of the library.
pub fn is_of_library(name: &str) -> bool {
    matches!(name, "printf" | "putchar" | "abort" | "exit")
}
