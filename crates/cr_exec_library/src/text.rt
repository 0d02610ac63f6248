// Strings (C11 7.1.1p1).
#![tactic(auto, using(cr_eval::proofs::Answering::answers, cr_eval::proofs::Answering::then_answers, cr_eval::proofs::Answering::ends_answer, crate::proofs::Printing::is_byte, crate::proofs::Printing::from_none))]

ghost use Rattle.std.specs.Prelude.{◌≡◌, Ok, ◌+◌, IfSome};
ghost use Rattle.cr_ints.specs.IntKind.{IsInteger};
ghost use Rattle.cr_meaning.specs.World.{then_by};
ghost use Rattle.cr_meaning.specs.Work.{integer};
ghost use Rattle.cr_meaning.specs.Library.{byte_of, following, room_from, text_by, text_at};
ghost use Rattle.cr_eval.specs.Answers.{Answers};
ghost use Rattle.cr_exec_library.specs.Printing.{behind, leaving, bytes_of, IsByte, Reads};

use cr_eval::{integer, load, misfits};
use cr_ints::{IntKind, convert};
use cr_meaning::Value;
use cr_memory::{Cell, Element, OTHER_TYPE, Pointer, Scalar, Store, Trap};
use std::alloc::Global;

/// A char as an element.
pub(crate) const CHAR: Element = Element { cells: 1, of: 1 };

/// The unsigned char that a number is converted to.
fn byte_of(value: i128) -> u8
    requires { IsInteger value }
    ensures { result ≡ byte_of value }
{
    convert(value, IntKind::UChar) as u8
}

/// The unsigned char that an integer's value is converted to: U15.
pub(crate) fn byte_from(value: &Value) -> Result<u8, Trap>
    ensures { Answers (then_by (integer value.now) (λ char. Ok (byte_of char))) result }
{
    match integer(value) {
        Ok(char) => Ok(byte_of(char)),
        Err(trap) => Err(trap),
    }
}

/// The byte that a char's cell holds.
fn byte_in(cell: Cell) -> Option<u8>
    ensures { IfSome result (λ byte. IsByte cell byte) }
{
    let Cell::Number(value) = cell else {
        return None;
    };
    match integer(&Value::Number(IntKind::Char, value)) {
        Ok(char) => Some(byte_of(char)),
        Err(_) => None,
    }
}

/// The next char's place, if its number isn't too large.
fn following(at: Pointer) -> Option<Pointer>
    ensures { IfSome result (λ to. to ≡ following at) }
{
    match at {
        Pointer::Null => Some(Pointer::Null),
        Pointer::At {
            object,
            cell,
            low,
            high,
            element,
        } => {
            let cell = cell.checked_add(1)?;
            Some(Pointer::At {
                object,
                cell,
                low,
                high,
                element,
            })
        }
    }
}

/// How many chars there are up to the array's end, and the read at that end.
fn room_from(at: Pointer) -> u64
    ensures { result ≡ room_from at }
{
    match at {
        Pointer::Null => 1,
        Pointer::At { cell, high, .. } => u64::from(high.saturating_sub(cell)) + 1,
    }
}

#[tactic(auto, using(crate::proofs::Printing::char_ends, crate::proofs::Printing::char_wants, crate::proofs::Printing::char_stops, crate::proofs::Printing::char_goes))]
/// Appends the char at a place, and gives the next place; at the zero there is none: U9, U10, U11, N5.
fn push_char(store: &Store, at: Pointer, out: &mut Vec<u8>) -> Result<Option<Pointer>, Trap>
    ensures { Reads store.now at out.old.items out.new.items result }
{
    let cell = match load(store, at, Scalar::Int(IntKind::Char)) {
        Ok(cell) => cell,
        Err(trap) => return Err(trap),
    };
    let Some(byte) = byte_in(cell) else {
        return Err(Trap::NoMemory);
    };
    if byte == 0 {
        return Ok(None);
    }
    let Ok(()) = out.push(byte) else {
        return Err(Trap::NoMemory);
    };
    match following(at) {
        Some(next) => Ok(Some(next)),
        None => Err(Trap::NoMemory),
    }
}

fn one_less(left: u64) -> Option<u64>
    ensures { IfSome result (λ fewer. left ≡ fewer + 1) }
{
    left.checked_sub(1)
}

/// Appends the chars from a place on, up to the zero, so many at most.
fn push_chars(store: &Store, from: Pointer, most: u64, out: &mut Vec<u8>) -> Result<(), Trap>
    ensures { Answers (then_by (text_by store.now most from) (behind out.old.items)) (leaving out.new.items result) }
{
    let mut at = from;
    let mut left = most;
    'chars: loop {
        let Some(fewer) = one_less(left) else {
            return Err(Trap::NoMemory);
        };
        match push_char(store, at, out) {
            Ok(Some(next)) => {
                at = next;
                left = fewer;
            }
            Ok(None) => return Ok(()),
            Err(trap) => return Err(trap),
        }
    }
}

/// Appends the string that begins at a place: N5, U9, U10, U11.
pub(crate) fn push_text(store: &Store, at: Pointer, out: &mut Vec<u8>) -> Result<(), Trap>
    ensures { Answers (then_by (text_at store.now at) (behind out.old.items)) (leaving out.new.items result) }
{
    if misfits(CHAR, at) {
        return Err(Trap::Left(OTHER_TYPE));
    }
    push_chars(store, at, room_from(at), out)
}

/// The string that begins at a place.
pub(crate) fn text(alloc: Global, store: &Store, at: Pointer) -> Result<Vec<u8>, Trap>
    ensures { Answers (text_at store.now at) (bytes_of result) }
{
    let mut out = Vec::new(alloc);
    match push_text(store, at, &mut out) {
        Ok(()) => Ok(out),
        Err(trap) => Err(trap),
    }
}
