// A change of a file's bytes.
use crate::form::Sign;

/// What comes in the place of a range of bytes.
#[derive(Clone, Copy, PartialEq, Eq, Drop)]
pub enum Text {
    Nothing,
    /// The constant `0`.
    Zero,
    /// The constant `1`.
    One,
    /// An empty statement, `;`.
    Semicolon,
    /// An empty list of parameters, `void`.
    Void,
    /// The bytes of the file from the first place to before the second.
    Same(u32, u32),
    /// Bytes that the index keeps, from the first place to before the second: a new name, or a printed text.
    Kept(u32, u32),
    /// The sign, and behind it the form of the first number, its holes filled by the runs of the second, with a space where `needs_space`
    /// asks for one.
    Filled(Sign, u32, u32),
}

/// The bytes from `start` to before `end` go, and the text comes.
#[derive(Clone, Copy, PartialEq, Eq, Drop)]
pub struct Change {
    pub start: u32,
    pub end: u32,
    pub text: Text,
}
