ghost use Rattle.std.specs.Prelude.{◌≡◌, ◌<◌, ◌^◌, ◌↔◌, IsTrue, slice_range};

use thiserror::Error;

/// The bytes of the longest file that is read.
pub const MAX_BYTES: usize = 1_048_576;

/// The most tokens that a file may have.
pub const MAX_TOKENS: usize = 262_144;

/// What a token is (C11 6.4p1).
#[derive(Clone, Copy, Debug, PartialEq, Eq, Hash)]
pub enum TokenKind {
    Keyword,
    Identifier,
    Integer,
    Character,
    Text,
    Punctuator,
}

/// A token: its kind, and the bytes of the file that spell it, from `start` to before `end`.
#[derive(Clone, Copy, Debug, PartialEq, Eq, Hash)]
pub struct Token {
    pub kind: TokenKind,
    pub start: u32,
    pub end: u32,
}

/// A file's tokens, in order.
#[derive(Debug, Drop)]
pub struct Tokens {
    pub list: Vec<Token>,
}

/// Why a file has no tokens. A number is the place of a byte, from 0.
#[derive(Clone, Copy, Debug, PartialEq, Eq, Error)]
pub enum TokenFault {
    #[error("out of memory")]
    NoMemory,
    #[error("a file of more than 1048576 bytes")]
    TooLong,
    #[error("a byte that begins no token, at {0}")]
    BadByte(u32),
    #[error("a comment without its end, at {0}")]
    OpenComment(u32),
    #[error("a literal without its closing quote, at {0}")]
    OpenLiteral(u32),
    #[error("more than 262144 tokens, at {0}")]
    TooMany(u32),
}

impl TokenFault {
    /// Whether memory was wanting, so that nothing is said of the file.
    pub fn is_want(self) -> bool
        ensures { IsTrue result ↔ (self ≡ TokenFault.NoMemory) }
    {
        matches!(self, TokenFault::NoMemory)
    }
}

impl Token {
    ghost use Rattle.cr_tokens.specs.Runs.{IsWithin};

    pub(crate) fn new(kind: TokenKind, start: usize, end: usize) -> Self
        requires start { start < 2 ^ 32 }
        requires end { end < 2 ^ 32 }
        ensures { result ≡ record { kind = kind; start = start; end = end } }
    {
        Token {
            kind,
            start: start as u32,
            end: end as u32,
        }
    }

    /// The bytes that spell the token in its file.
    pub fn spelling<'a>(&self, file: &'a [u8]) -> &'a [u8]
        requires { IsWithin file.now self.now }
        ensures { result.now ≡ slice_range file.now self.now.start self.now.end }
    {
        &file[self.start as usize..self.end as usize]
    }
}
