// Ranges of tokens.
ghost use Rattle.std.specs.Prelude.{◌≡◌};
ghost use Rattle.pass_levels.specs.Places.{gone, replaced, spelling_at, token_at, with_comma};

use cr_tokens::{Token, TokenKind};
use pass_edit::{Change, Text, part};

pub(crate) fn token_at(tokens: &[Token], at: usize) -> Token
    ensures { result ≡ token_at tokens.now at }
{
    match tokens.get(at) {
        Some(token) => *token,
        None => Token {
            kind: TokenKind::Punctuator,
            start: 0,
            end: 0,
        },
    }
}

/// The bytes that spell the token of a number. One that isn't there has none.
pub fn spelling_at<'a>(file: &'a [u8], tokens: &[Token], at: usize) -> &'a [u8]
    ensures { result.now ≡ spelling_at file.now tokens.now at }
{
    let token = token_at(tokens, at);
    part(file, token.start as usize, token.end as usize)
}

/// The text comes in the place of the tokens from `first` to `last`. A token that isn't there has no bytes, and stands at the front.
pub fn replaced(tokens: &[Token], first: usize, last: usize, text: Text) -> Change
    ensures { result ≡ replaced tokens.now first last text }
{
    Change {
        start: token_at(tokens, first).start,
        end: token_at(tokens, last).end,
        text,
    }
}

/// The tokens from `first` to `last` go.
pub fn gone(tokens: &[Token], first: usize, last: usize) -> Change
    ensures { result ≡ gone tokens.now first last }
{
    replaced(tokens, first, last, Text::Nothing)
}

/// Part `at` of `count` parts that commas separate goes, from `first` to `last`: with the comma after it, or, where it is the last of several,
/// with the one before it.
pub fn with_comma(tokens: &[Token], at: usize, count: usize, first: usize, last: usize) -> Change
    ensures { result ≡ with_comma tokens.now at count first last }
{
    if count <= 1 {
        gone(tokens, first, last)
    } else if at == count - 1 {
        gone(tokens, first.saturating_sub(1), last)
    } else {
        gone(tokens, first, last.saturating_add(1))
    }
}
