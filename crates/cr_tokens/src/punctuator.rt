ghost use Rattle.std.specs.Prelude.{◌≡◌, ◌≢◌, ◌≤◌, ◌<◌, ◌∷◌, [], IfOk, IfErr, length, slice_index};
ghost use Rattle.cr_tokens.specs.Bytes.{IsSpace, IsNondigit, is_among};
ghost use Rattle.cr_tokens.specs.Numbers.{BeginsNumber};
ghost use Rattle.cr_tokens.specs.Punctuators.{punctuators, punctuator_len as punctuator_len_lem};
ghost use Rattle.cr_tokens.specs.Blanks.{OpensComment};
ghost use Rattle.cr_tokens.specs.Items.{StandsAt};
ghost use Rattle.cr_tokens.specs.Faults.{IsQuote, FaultAt};

use crate::blank::is_splice;
use crate::bytes::byte_at;
use crate::item::Item;
use crate::token::{Token, TokenFault, TokenKind};

/// The punctuator at a place where nothing else can stand.
pub fn punctuator_at(file: &[u8], at: usize) -> Result<Item, TokenFault>
    requires inside { at < length file.now }
    requires short { length file.now ≤ 1048576 }
    requires no_space { ¬ IsSpace (slice_index file.now at) }
    requires no_word { ¬ IsNondigit (slice_index file.now at) }
    requires no_number { ¬ BeginsNumber file.now at }
    requires no_quote { ¬ IsQuote (slice_index file.now at) }
    requires no_comment { ¬ OpensComment file.now at }
    requires no_hash { slice_index file.now at ≢ 35 }
    ensures item { IfOk result (StandsAt file.now at) }
    ensures fault { IfErr result (FaultAt file.now at) }
{
    let len = punctuator_len(file[at], byte_at(file, at + 1), byte_at(file, at + 2));
    if len == 0 {
        return Err(TokenFault::BadByte(at as u32));
    }
    if is_splice(file, at) {
        return Err(TokenFault::BadByte(at as u32));
    }
    Ok(Item::Spelled(Token::new(TokenKind::Punctuator, at, at + len)))
}

/// The length of the longest punctuator that begins with these bytes, or 0.
fn punctuator_len(first: u8, second: u8, third: u8) -> usize
    ensures { result ≡ punctuator_len_lem first second third }
{
    if is_three(first, second, third) {
        3
    } else if is_two(first, second) {
        2
    } else if is_one(first) {
        1
    } else {
        0
    }
}

fn is_three(first: u8, second: u8, third: u8) -> bool
    ensures { result ≡ is_among punctuators (first ∷ second ∷ third ∷ []) }
{
    match first {
        b'.' => second == b'.' && third == b'.',
        b'<' => second == b'<' && third == b'=',
        b'>' => second == b'>' && third == b'=',
        _ => false,
    }
}

fn is_two(first: u8, second: u8) -> bool
    ensures { result ≡ is_among punctuators (first ∷ second ∷ []) }
{
    match first {
        b'-' => second == b'>' || second == b'-' || second == b'=',
        b'+' => second == b'+' || second == b'=',
        b'<' => second == b'<' || second == b'=',
        b'>' => second == b'>' || second == b'=',
        b'&' => second == b'&' || second == b'=',
        b'|' => second == b'|' || second == b'=',
        b'=' | b'!' | b'*' | b'/' | b'%' | b'^' => second == b'=',
        _ => false,
    }
}

fn is_one(first: u8) -> bool
    ensures { result ≡ is_among punctuators (first ∷ []) }
{
    matches!(
        first,
        b'[' | b']'
            | b'('
            | b')'
            | b'{'
            | b'}'
            | b'.'
            | b'&'
            | b'*'
            | b'+'
            | b'-'
            | b'~'
            | b'!'
            | b'/'
            | b'%'
            | b'<'
            | b'>'
            | b'^'
            | b'|'
            | b'?'
            | b':'
            | b';'
            | b'='
            | b','
    )
}
