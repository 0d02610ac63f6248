// The pieces of a format, printed (C11 7.21.6.1).
#![tactic(auto, using(cr_eval::proofs::Answering::answers, cr_eval::proofs::Answering::then_answers, cr_eval::proofs::Answering::ends_answer, crate::proofs::Printing::is_byte, crate::proofs::Printing::from_none))]

ghost use Rattle.std.specs.Prelude.{◌≡◌};
ghost use Rattle.std.specs.List.{zip};
ghost use Rattle.cr_meaning.specs.World.{then_by};
ghost use Rattle.cr_meaning.specs.Library.{promoted, text_shown, integer_shown, piece_shown, printed};
ghost use Rattle.cr_eval.specs.Answers.{Answers};
ghost use Rattle.cr_exec_library.specs.Printing.{behind, leaving, bytes_of, of_first, one_printed, takes_argument, rest_of, Prints};

use crate::text::push_text;
use cr_ints::{IntKind, promote};
use cr_library::{Piece, ShowEnd, show};
use cr_meaning::Value;
use cr_memory::{Store, Trap};
use std::alloc::Global;

/// U16: an argument of `printf` is missing, or of another type than its conversion takes (7.21.6.1p9).
pub const MISMATCH: u8 = 16;

/// Appends what a conversion prints of a number: U16.
fn push_number(piece: &Piece, kind: IntKind, value: i128, out: &mut Vec<u8>) -> Result<(), Trap>
    ensures { Answers (then_by (integer_shown piece.now (Value.Number kind value)) (behind out.old.items)) (leaving out.new.items result) }
{
    if !piece.takes_integer() || !kind.can_represent(value) {
        return Err(Trap::NoMemory);
    }
    match show(piece, kind, value, out) {
        Ok(()) => Ok(()),
        Err(ShowEnd::Disagrees) => Err(Trap::Undefined(MISMATCH)),
        Err(ShowEnd::NoMemory) => Err(Trap::NoMemory),
    }
}

/// Appends what a conversion of an integer prints of an argument, after the default promotions (6.5.2.2p6): U16.
fn push_integer(piece: &Piece, value: &Value, out: &mut Vec<u8>) -> Result<(), Trap>
    ensures { Answers (then_by (integer_shown piece.now (promoted value.now)) (behind out.old.items)) (leaving out.new.items result) }
{
    match value {
        Value::Number(kind, number) => push_number(piece, promote(*kind), *number, out),
        Value::Nothing | Value::Pointer(_) | Value::Place(_) | Value::Cells(_) => {
            Err(Trap::Undefined(MISMATCH))
        }
    }
}

/// Appends the string that an argument points to: U16, and the cases of its chars.
fn push_string(store: &Store, is_text: bool, value: &Value, out: &mut Vec<u8>) -> Result<(), Trap>
    ensures { Answers (then_by (text_shown store.now is_text value.now) (behind out.old.items)) (leaving out.new.items result) }
{
    match value {
        Value::Pointer(at) => {
            if is_text {
                push_text(store, *at, out)
            } else {
                Err(Trap::Undefined(MISMATCH))
            }
        }
        Value::Nothing | Value::Number(_, _) | Value::Place(_) | Value::Cells(_) => {
            Err(Trap::Undefined(MISMATCH))
        }
    }
}

/// Appends what a conversion prints of an argument, which may be a pointer to char: U16.
fn push_piece(
    store: &Store,
    piece: &Piece,
    is_text: bool,
    value: &Value,
    out: &mut Vec<u8>,
) -> Result<(), Trap>
    ensures { Answers (then_by (piece_shown store.now piece.now (is_text, value.now)) (behind out.old.items)) (leaving out.new.items result) }
{
    match piece {
        Piece::Text => push_string(store, is_text, value, out),
        _ => push_integer(piece, value, out),
    }
}

/// Appends plain bytes.
fn push_bytes(bytes: &[u8], out: &mut Vec<u8>) -> Result<(), Trap>
    ensures { Answers (behind out.old.items bytes.now) (leaving out.new.items result) }
{
    match out.extend_from_slice(bytes) {
        Ok(()) => Ok(()),
        Err(_) => Err(Trap::NoMemory),
    }
}

/// Appends what a conversion prints of the next argument: U16.
fn push_converted(
    store: &Store,
    piece: &Piece,
    texts: &[bool],
    values: &[Value],
    out: &mut Vec<u8>,
) -> Result<(), Trap>
    ensures { Answers (then_by (of_first store.now piece.now (zip texts.now values.now)) (behind out.old.items)) (leaving out.new.items result) }
{
    let [is_text, ..] = texts else {
        return Err(Trap::Undefined(MISMATCH));
    };
    let [value, ..] = values else {
        return Err(Trap::Undefined(MISMATCH));
    };
    push_piece(store, piece, *is_text, value, out)
}

/// Appends what a piece prints, of the next argument if it takes one: U16.
fn push_one(
    store: &Store,
    piece: &Piece,
    texts: &[bool],
    values: &[Value],
    out: &mut Vec<u8>,
) -> Result<(), Trap>
    ensures { Answers (then_by (one_printed store.now piece.now (zip texts.now values.now)) (behind out.old.items)) (leaving out.new.items result) }
{
    match piece {
        Piece::Bytes(bytes) => push_bytes(bytes.as_slice(), out),
        _ => push_converted(store, piece, texts, values, out),
    }
}

/// The same, as the first of more pieces.
fn push_next(
    store: &Store,
    piece: &Piece,
    texts: &[bool],
    values: &[Value],
    out: &mut Vec<u8>,
) -> Result<(), Trap>
    ensures { Prints store.now piece.now (zip texts.now values.now) out.old.items out.new.items result }
{
    push_one(store, piece, texts, values, out)
}

fn takes_argument(piece: &Piece) -> bool
    ensures { result ≡ takes_argument piece.now }
{
    match piece {
        Piece::Bytes(_) => false,
        _ => true,
    }
}

/// What is left behind a piece, of as many as there are arguments.
fn left_behind<'a, T>(piece: &Piece, items: &'a [T]) -> &'a [T]
    ensures { result.now ≡ rest_of (takes_argument piece.now) items.now }
{
    if takes_argument(piece) {
        match items {
            [_, more @ ..] => more,
            [] => items,
        }
    } else {
        items
    }
}

/// Appends what the pieces print, from left to right: U16, and the cases of strings.
fn push_pieces(
    store: &Store,
    pieces: &[Piece],
    texts: &[bool],
    values: &[Value],
    out: &mut Vec<u8>,
) -> Result<(), Trap>
    ensures { Answers (then_by (printed store.now pieces.now (zip texts.now values.now)) (behind out.old.items)) (leaving out.new.items result) }
{
    let mut texts_left = texts;
    let mut values_left = values;
    for piece in pieces {
        match push_next(store, piece, texts_left, values_left, out) {
            Ok(()) => {}
            Err(trap) => return Err(trap),
        }
        texts_left = left_behind(piece, texts_left);
        values_left = left_behind(piece, values_left);
    }
    Ok(())
}

/// What the pieces print.
pub(crate) fn print_all(
    alloc: Global,
    store: &Store,
    pieces: &[Piece],
    texts: &[bool],
    values: &[Value],
) -> Result<Vec<u8>, Trap>
    ensures { Answers (printed store.now pieces.now (zip texts.now values.now)) (bytes_of result) }
{
    let mut out = Vec::new(alloc);
    match push_pieces(store, pieces, texts, values, &mut out) {
        Ok(()) => Ok(out),
        Err(trap) => Err(trap),
    }
}
