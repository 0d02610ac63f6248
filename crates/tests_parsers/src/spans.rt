ghost use Rattle.std.specs.Prelude.{◌≤◌, ◌↔◌, IsTrue, length};
ghost use Rattle.cr_syntax.specs.Words.{AreSpans};

use cr_tokens::{MAX_TOKENS, Token};

/// Whether tokens are parts of a file and no more than a file may have. The parsers ask no more of their caller.
pub fn are_spans(file: &[u8], tokens: &[Token]) -> bool
    ensures { IsTrue result ↔ (AreSpans file.now tokens.now × (length tokens.now ≤ 262144)) }
{
    if tokens.len() > MAX_TOKENS {
        return false;
    }
    for token in tokens {
        if token.start > token.end || token.end as usize > file.len() {
            return false;
        }
    }
    true
}
