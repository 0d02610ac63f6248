ghost use Rattle.std.specs.Prelude.{◌≡◌, ◌≤◌, ◌<◌, length, slice_index};
ghost use Rattle.cr_tokens.specs.Bytes.{is_among as is_among_lem, IsNondigit};
ghost use Rattle.cr_tokens.specs.Words.{keywords, word_kind_of};
ghost use Rattle.cr_tokens.specs.Tokens.{IsToken};

use crate::bytes::{is_among, is_word_byte, run_end};
use crate::token::{Token, TokenKind};

/// The keywords by their lengths.
const KEYWORDS: [&[&[u8]]; 15] = [
    &[],
    &[],
    &[b"do", b"if"],
    &[b"for", b"int"],
    &[
        b"auto", b"case", b"char", b"else", b"enum", b"goto", b"long", b"void",
    ],
    &[
        b"break", b"const", b"float", b"short", b"union", b"while", b"_Bool",
    ],
    &[
        b"double", b"extern", b"inline", b"return", b"signed", b"sizeof", b"static", b"struct",
        b"switch",
    ],
    &[b"default", b"typedef", b"_Atomic"],
    &[
        b"continue",
        b"register",
        b"restrict",
        b"unsigned",
        b"volatile",
        b"_Alignas",
        b"_Alignof",
        b"_Complex",
        b"_Generic",
    ],
    &[b"_Noreturn"],
    &[b"_Imaginary"],
    &[],
    &[],
    &[b"_Thread_local"],
    &[b"_Static_assert"],
];

/// The keyword or identifier at a letter or underscore.
pub fn word_at(file: &[u8], at: usize) -> Token
    requires inside { at < length file.now }
    requires short { length file.now ≤ 1048576 }
    requires first { IsNondigit (slice_index file.now at) }
    ensures token { IsToken file.now result }
    ensures start { result.start ≡ at }
{
    let end = run_end(file, at, is_word_byte);
    Token::new(word_kind(&file[at..end]), at, end)
}

fn word_kind(word: &[u8]) -> TokenKind
    ensures { result ≡ word_kind_of word.now }
{
    if is_keyword(word) {
        TokenKind::Keyword
    } else {
        TokenKind::Identifier
    }
}

/// Whether a word is a keyword (C11 6.4.1).
pub fn is_keyword(word: &[u8]) -> bool
    ensures { result ≡ is_among_lem keywords word.now }
{
    word.len() < KEYWORDS.len() && is_among(KEYWORDS[word.len()], word)
}
