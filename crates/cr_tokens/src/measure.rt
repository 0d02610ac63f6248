ghost use Rattle.std.specs.Prelude.{◌≡◌, ◌≤◌, ◌*◌, length};
ghost use Rattle.cr_tokens.specs.Tokens.{Tokenizes};
ghost use Rattle.cr_tokens.specs.Size.{size_of, share_of, weight_of};
ghost use Rattle.cr_tokens.specs.Runs.{IsWithin};

use crate::token::{Token, TokenKind, Tokens};

/// The size of a file: its bytes, 8 for each token, and the tokens' weights.
pub fn size(file: &[u8], tokens: &Tokens) -> u64
    requires { Tokenizes file.now tokens.now.list.items }
    ensures size { result ≡ size_of file.now tokens.now.list.items }
    ensures bound { result ≤ 12 * length file.now }
{
    let list = tokens.list.as_slice();
    let mut total = file.len() as u64;
    for token in list {
        total += share(file, token);
    }
    total
}

/// What a token adds to the size.
fn share(file: &[u8], token: &Token) -> u64
    requires { IsWithin file.now token.now }
    ensures share { result ≡ share_of file.now token.now }
    ensures bound { result ≤ 11 }
{
    8 + weight(token.kind, token.spelling(file))
}

fn weight(kind: TokenKind, spelling: &[u8]) -> u64
    ensures weight { result ≡ weight_of kind spelling.now }
    ensures bound { result ≤ 3 }
{
    match kind {
        TokenKind::Identifier => 3,
        TokenKind::Character | TokenKind::Text => 2,
        TokenKind::Keyword | TokenKind::Punctuator => 0,
        TokenKind::Integer => match spelling {
            [b'0'] => 0,
            [b'1'] => 1,
            _ => 2,
        },
    }
}
