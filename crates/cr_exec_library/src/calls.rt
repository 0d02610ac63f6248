// The calls.
#![tactic(auto, using(cr_eval::proofs::Answering::answers, cr_eval::proofs::Answering::then_answers, cr_eval::proofs::Answering::ends_answer, crate::proofs::Printing::is_byte, crate::proofs::Printing::from_none))]

ghost use Rattle.std.specs.Prelude.{◌≡◌, ◌∷◌, [], Some, pos, length, nat_le, ◌+◌};
ghost use Rattle.std.specs.List.{list_any, zip};
ghost use Rattle.cr_meaning.specs.World.{World};
ghost use Rattle.cr_meaning.specs.Work.{is_nothing};
ghost use Rattle.cr_meaning.specs.Library.{pieces_of, put_out, formatted, printf_of, putchar_of, exit_of, status_of};
ghost use Rattle.cr_eval.specs.Answers.{Answers};
ghost use Rattle.cr_eval.specs.Table.{program_of};
ghost use Rattle.cr_exec_library.specs.Printing.{called, counted, over, printed_on, pieces_in, read_of, trap_of};

use crate::pieces::print_all;
use crate::text::{CHAR, byte_from, text};
use cr_eval::{Table, UNUSED_VALUE, as_pointer, integer, is_nothing, misfits};
use cr_ints::{IntKind, convert};
use cr_library::{FormatEnd, Piece};
use cr_meaning::Value;
use cr_memory::{OTHER_TYPE, Store, Trap};
use std::alloc::Global;

/// N4: the output has a limit.
pub const LEFT_BY_OUTPUT: u8 = 4;

/// N7: a format has a conversion outside the profile.
pub const LEFT_BY_FORMAT: u8 = 7;

/// Whether so many bytes fit behind those that are there.
fn fits(limit: u32, there: usize, more: usize) -> bool
    ensures { result ≡ nat_le (there + more) limit }
{
    let limit = limit as usize;
    more <= limit && there <= limit - more
}

/// Bytes are printed: N4.
fn put_out(table: &Table, output: &mut Vec<u8>, bytes: &[u8], value: Value) -> Result<Value, Trap>
    ensures { (world : World) → Answers (put_out (program_of table.now) (printed_on world output.old.items) bytes.now value) (called output.new.items result) }
{
    if !fits(table.limits.output, output.len(), bytes.len()) {
        return Err(Trap::Left(LEFT_BY_OUTPUT));
    }
    match output.extend_from_slice(bytes) {
        Ok(()) => Ok(value),
        Err(_) => Err(Trap::NoMemory),
    }
}

fn count_of(bytes: &[u8]) -> Value
    ensures { result ≡ counted bytes.now }
{
    Value::Number(IntKind::Int, bytes.len() as i128)
}

/// Bytes are printed, and their number is given: N4.
fn put_counted(table: &Table, output: &mut Vec<u8>, bytes: &[u8]) -> Result<Value, Trap>
    ensures { (world : World) → Answers (put_out (program_of table.now) (printed_on world output.old.items) bytes.now (counted bytes.now)) (called output.new.items result) }
{
    put_out(table, output, bytes, count_of(bytes))
}

/// A byte is printed and given: N4.
fn put_byte(table: &Table, output: &mut Vec<u8>, byte: u8) -> Result<Value, Trap>
    ensures { (world : World) → Answers (put_out (program_of table.now) (printed_on world output.old.items) (byte ∷ []) (Value.Number IntKind.Int (pos byte))) (called output.new.items result) }
{
    if !fits(table.limits.output, output.len(), 1) {
        return Err(Trap::Left(LEFT_BY_OUTPUT));
    }
    match output.push(byte) {
        Ok(()) => Ok(Value::Number(IntKind::Int, i128::from(byte))),
        Err(_) => Err(Trap::NoMemory),
    }
}

fn trap_of(end: FormatEnd) -> Trap
    ensures { result ≡ trap_of end }
{
    match end {
        FormatEnd::Outside => Trap::Left(LEFT_BY_FORMAT),
        FormatEnd::NoMemory => Trap::NoMemory,
    }
}

/// The pieces of a format: N7.
fn read(alloc: Global, format: &[u8]) -> Result<Vec<Piece>, Trap>
    ensures { Answers (read_of (pieces_of format.now)) (pieces_in result) }
{
    match cr_library::pieces(alloc, format) {
        Ok(pieces) => Ok(pieces),
        Err(end) => Err(trap_of(end)),
    }
}

/// The pieces of a format are printed: U16, the cases of strings, N4.
fn print(
    alloc: Global,
    table: &Table,
    store: &Store,
    output: &mut Vec<u8>,
    texts: &[bool],
    values: &[Value],
    pieces: &[Piece],
) -> Result<Value, Trap>
    ensures { (world : World) → Answers (formatted (program_of table.now) (over world store.now output.old.items) (zip texts.now values.now) (Some pieces.now)) (called output.new.items result) }
{
    match print_all(alloc, store, pieces, texts, values) {
        Ok(bytes) => put_counted(table, output, &bytes),
        Err(trap) => Err(trap),
    }
}

/// A format is read and printed: N7, U16, the cases of strings, N4.
fn formatted(
    alloc: Global,
    table: &Table,
    store: &Store,
    output: &mut Vec<u8>,
    texts: &[bool],
    values: &[Value],
    format: &[u8],
) -> Result<Value, Trap>
    ensures { (world : World) → Answers (formatted (program_of table.now) (over world store.now output.old.items) (zip texts.now values.now) (pieces_of format.now)) (called output.new.items result) }
{
    match read(alloc, format) {
        Ok(pieces) => print(alloc, table, store, output, texts, values, &pieces),
        Err(trap) => Err(trap),
    }
}

/// Whether some value isn't there.
pub fn any_nothing(values: &[Value]) -> bool
    ensures { result ≡ list_any is_nothing values.now }
{
    values.iter().any(|value| is_nothing(value))
}

/// `printf` (C11 7.21.6.3) of a format and other arguments, of which each is a pointer to char or isn't: U15, N5, the cases of the
/// format's chars, N7, U16, N4.
pub fn printf(
    alloc: Global,
    table: &Table,
    store: &Store,
    output: &mut Vec<u8>,
    texts: &[bool],
    format: &Value,
    values: &[Value],
) -> Result<Value, Trap>
    ensures { (world : World) → Answers (printf_of (program_of table.now) (over world store.now output.old.items) texts.now (format.now ∷ values.now)) (called output.new.items result) }
{
    let at = match as_pointer(format) {
        Ok(at) => at,
        Err(trap) => return Err(trap),
    };
    if misfits(CHAR, at) {
        return Err(Trap::Left(OTHER_TYPE));
    }
    if any_nothing(values) {
        return Err(Trap::Undefined(UNUSED_VALUE));
    }
    match text(alloc, store, at) {
        Ok(bytes) => formatted(alloc, table, store, output, texts, values, &bytes),
        Err(trap) => Err(trap),
    }
}

/// `putchar` (7.21.7.7): U15, N4.
pub fn putchar(table: &Table, output: &mut Vec<u8>, value: &Value) -> Result<Value, Trap>
    ensures { (world : World) → Answers (putchar_of (program_of table.now) (printed_on world output.old.items) (value.now ∷ [])) (called output.new.items result) }
{
    match byte_from(value) {
        Ok(byte) => put_byte(table, output, byte),
        Err(trap) => Err(trap),
    }
}

/// The status that the system sees of an argument of `exit` or a value of main.
pub fn status_of(value: i128) -> u8
    ensures { result ≡ status_of value }
{
    value.rem_euclid(256) as u8
}

/// The status of `exit` (7.22.4.4): U15.
pub fn exit(value: &Value) -> Result<u8, Trap>
    ensures { Answers (exit_of (value.now ∷ [])) result }
{
    match integer(value) {
        Ok(number) => Ok(status_of(convert(number, IntKind::Int))),
        Err(trap) => Err(trap),
    }
}
