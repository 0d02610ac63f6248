ghost use Rattle.std.specs.Prelude.{◌≤◌, ◌+◌, ◌↔◌, IsTrue, length};
ghost use Rattle.cr_tokens.specs.Tokens.{Tokenizes};
ghost use Rattle.cr_tokens.specs.Runs.{spellings, StandsIn, StandsFrom, AllWithin};

use crate::token::{Token, Tokens};

/// Whether the wanted tokens' spellings stand as an unbroken run in the file's tokens. An empty
/// wanted list does.
pub fn contains(file: &[u8], tokens: &Tokens, text: &[u8], wanted: &Tokens) -> bool
    requires file { Tokenizes file.now tokens.now.list.items }
    requires text { Tokenizes text.now wanted.now.list.items }
    ensures { IsTrue result ↔ StandsIn (spellings text.now wanted.now.list.items) (spellings file.now tokens.now.list.items) }
{
    let all = tokens.list.as_slice();
    let run = wanted.list.as_slice();
    if run.len() > all.len() {
        return false;
    }
    let places = all.len() - run.len() + 1;
    for first in 0..places {
        if stands_at(file, all, text, run, first) {
            return true;
        }
    }
    false
}

/// Whether the tokens `run` of `text` are spelled as those of `file` from `first` on.
fn stands_at(file: &[u8], all: &[Token], text: &[u8], run: &[Token], first: usize) -> bool
    requires file { AllWithin file.now all.now }
    requires text { AllWithin text.now run.now }
    requires room { first + length run.now ≤ length all.now }
    ensures { IsTrue result ↔ StandsFrom first (spellings text.now run.now) (spellings file.now all.now) }
{
    for at in 0..run.len() {
        let is_same = all[first + at].spelling(file) == run[at].spelling(text);
        if !is_same {
            return false;
        }
    }
    true
}
