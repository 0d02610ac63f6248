ghost use Rattle.std.specs.Prelude.{◌≤◌, ◌<◌, length, IfOk, IfErr};
ghost use Rattle.cr_tokens.specs.Items.{StandsAt};
ghost use Rattle.cr_tokens.specs.Faults.{FaultAt};

use crate::blank::{comment_at, skipped_line_at};
use crate::bytes::{byte_at, is_digit, is_nondigit, is_space};
use crate::literal::literal_at;
use crate::number::number_at;
use crate::punctuator::punctuator_at;
use crate::token::{Token, TokenFault};
use crate::word::word_at;

/// What stands at a place of a file: a blank up to a place, or a token.
#[derive(Clone, Copy, Debug)]
pub enum Item {
    Blank(usize),
    Spelled(Token),
}

/// What stands at a place, or the fault there.
pub fn item_at(file: &[u8], at: usize) -> Result<Item, TokenFault>
    requires inside { at < length file.now }
    requires short { length file.now ≤ 1048576 }
    ensures item { IfOk result (StandsAt file.now at) }
    ensures fault { IfErr result (FaultAt file.now at) }
{
    let byte = file[at];
    if is_space(byte) {
        return Ok(Item::Blank(at + 1));
    }
    if is_nondigit(byte) {
        return Ok(Item::Spelled(word_at(file, at)));
    }
    let next = byte_at(file, at + 1);
    if is_digit(byte) || byte == b'.' && is_digit(next) {
        return number_at(file, at);
    }
    if byte == b'/' && (next == b'/' || next == b'*') {
        return comment_at(file, at);
    }
    match byte {
        b'\'' | b'"' => literal_at(file, at),
        b'#' => skipped_line_at(file, at),
        _ => punctuator_at(file, at),
    }
}
