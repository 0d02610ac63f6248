ghost use Rattle.std.specs.Prelude.{◌≡◌};
ghost use Rattle.cr_check_constants.specs.Literals.{simple_escape_of, escape_of, code_of, inside_of, character_of, character_of_code};

use crate::constant::{Constant, Operand};
use crate::convert::converted;
use crate::literal::{byte_at, magnitude};
use cr_ints::IntKind;

/// A character constant by its spelling (C11 6.4.4.4): an int. It is None where an escape sequence's value is above 255;
/// a spelling that is no character constant is read as if it were one.
pub fn character(spelling: &[u8]) -> Option<Operand>
    ensures { result ≡ character_of spelling.now }
{
    of_code(code(inside(spelling)))
}

fn of_code(code: u128) -> Option<Operand>
    ensures { result ≡ character_of_code code }
{
    if code > 255 {
        return None;
    }
    Some(Operand {
        kind: IntKind::Int,
        constant: Constant::Value(converted(IntKind::Char, code as i128)),
    })
}

// What stands between the quotes.
fn inside(spelling: &[u8]) -> &[u8]
    ensures { result.now ≡ inside_of spelling.now }
{
    if spelling.len() < 2 {
        &spelling[..0]
    } else {
        &spelling[1..spelling.len() - 1]
    }
}

fn code(inside: &[u8]) -> u128
    ensures { result ≡ code_of inside.now }
{
    match byte_at(inside, 0) {
        b'\\' => escape(&inside[1..]),
        byte => u128::from(byte),
    }
}

// What an escape sequence stands for, by what is behind its backslash.
fn escape(behind: &[u8]) -> u128
    ensures { result ≡ escape_of behind.now }
{
    match byte_at(behind, 0) {
        b'x' => magnitude(16, &behind[1..]),
        b'0'..=b'7' => magnitude(8, behind),
        letter => u128::from(simple_escape(letter)),
    }
}

fn simple_escape(letter: u8) -> u8
    ensures { result ≡ simple_escape_of letter }
{
    match letter {
        b'a' => 7,
        b'b' => 8,
        b'f' => 12,
        b'n' => 10,
        b'r' => 13,
        b't' => 9,
        b'v' => 11,
        other => other,
    }
}
