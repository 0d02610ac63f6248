// The calls of the library.
use crate::rows::{expect_text, rows, triple};
use crate::unit::{Unit, make_unit, value_of};
use cr_exec_library::{exit, printf, putchar};
use cr_exec_world::write;
use cr_ints::IntKind;
use cr_meaning::Value;
use cr_memory::{Cell, Element, Guard, Pointer, Scalar, Store, Trap};
use std::alloc::{AllocError, Global};

// A char as an element.
const CHAR: Element = Element { cells: 1, of: 1 };

// Formats, arguments, and the value with what stands in the output then, or the first case. An argument is a number of type int, or with
// `u` or `l` behind it unsigned int or long; `'` begins a string, `[` one without its zero; `n` is a null pointer to char, `e` one whose
// object's lifetime has ended, `*` a pointer to int, `g` the value of a call that gives none. 8 bytes may be printed. By hand from
// 7.21.6.1, and this project's profile.
const PRINTF: &str = "
%s%c%x%%¦'a 66 255¦5 aBff%
%d %u %ld¦-1 7u 2l¦6 -1 7 2
%u%x¦7 255¦3 7ff
¦1 2¦0 
12345678¦¦8 12345678
123456789¦¦N4
%5d¦1¦N7
%d%5d¦¦N7
%d¦¦U16
%ld¦1¦U16
%u¦-1¦U16
%x¦-16¦U16
%d¦*¦U16
%s¦65¦U16
%s¦*¦U16
%s¦n¦U9
%s¦[ab¦U9
%s¦e¦U10
%d¦g¦U15
%5d¦g¦U15
";

// The characters of a string, with its zero or without.
fn chars(alloc: Global, bytes: &str, closed: bool) -> Result<Vec<Cell>, AllocError> {
    let mut cells = Vec::new(alloc);
    for byte in bytes.as_bytes() {
        cells.push(Cell::Number(i128::from(*byte)))?;
    }
    if closed {
        cells.push(Cell::Number(0))?;
    }
    Ok(cells)
}

// Puts characters into the store, and answers the number of their object.
fn put_chars(alloc: Global, store: &mut Store, cells: &[Cell]) -> Result<u32, AllocError> {
    let shape = vec![in alloc; (Scalar::Int(IntKind::Char), Guard::Literal); cells.len()]?;
    let object = store.enter(&shape, false).map_err(|_| AllocError)?;
    match write(store, object, 0, cells) {
        Ok(()) => Ok(object),
        Err(_) => Err(AllocError),
    }
}

fn string(alloc: Global, unit: &mut Unit, bytes: &str, closed: bool) -> Result<Value, AllocError> {
    let cells = chars(alloc, bytes, closed)?;
    let high = u32::try_from(cells.len()).map_err(|_| AllocError)?;
    let object = put_chars(alloc, &mut unit.world.store, &cells)?;
    Ok(Value::Pointer(Pointer::At {
        object,
        cell: 0,
        low: 0,
        high,
        element: CHAR,
    }))
}

// Whether an argument is a pointer to char.
fn is_text(word: &str) -> bool {
    word == "n" || word == "e" || word.starts_with("'") || word.starts_with("[")
}

fn texts(alloc: Global, words: &str) -> Result<Vec<bool>, AllocError> {
    let mut texts = Vec::new(alloc);
    for word in words.split_whitespace() {
        texts.push(is_text(word))?;
    }
    Ok(texts)
}

// The same place as one of chars.
fn to_chars(value: Value) -> Value {
    match value {
        Value::Pointer(
            Pointer::At {
                object,
                cell,
                low,
                high,
                ..
            },
        ) => Value::Pointer(Pointer::At {
            object,
            cell,
            low,
            high,
            element: CHAR,
        }),
        other => other,
    }
}

fn argument(alloc: Global, unit: &mut Unit, word: &str) -> Result<Value, AllocError> {
    if let Some(bytes) = word.strip_prefix("'") {
        return string(alloc, unit, bytes, true);
    }
    if let Some(bytes) = word.strip_prefix("[") {
        return string(alloc, unit, bytes, false);
    }
    if is_text(word) {
        return Ok(to_chars(value_of(word)));
    }
    Ok(value_of(word))
}

fn arguments(alloc: Global, unit: &mut Unit, words: &str) -> Result<Vec<Value>, AllocError> {
    let mut values = Vec::new(alloc);
    for word in words.split_whitespace() {
        values.push(argument(alloc, unit, word)?)?;
    }
    Ok(values)
}

fn case(alloc: Global, trap: Trap) -> Result<String, AllocError> {
    match trap {
        Trap::Undefined(number) => format!(in alloc; "U{number}"),
        Trap::Left(number) => format!(in alloc; "N{number}"),
        Trap::NoMemory => String::from_str(alloc, "no answer"),
    }
}

fn number_shown(alloc: Global, number: i128, output: &[u8]) -> Result<String, AllocError> {
    let printed = String::from_utf8_lossy(alloc, output)?;
    format!(in alloc; "{number} {printed}")
}

fn shown(alloc: Global, value: Result<Value, Trap>, output: &[u8]) -> Result<String, AllocError> {
    match value {
        Ok(Value::Number(_, number)) => number_shown(alloc, number, output),
        Ok(_) => String::from_str(alloc, "no number"),
        Err(trap) => case(alloc, trap),
    }
}

// What a call of `printf` comes to, in words.
fn called(
    alloc: Global,
    unit: &mut Unit,
    texts: &[bool],
    format: &Value,
    values: &[Value],
) -> Result<String, AllocError> {
    let world = &mut unit.world;
    let value = printf(
        alloc,
        &unit.table,
        &world.store,
        &mut world.output,
        texts,
        format,
        values,
    );
    shown(alloc, value, &world.output)
}

fn printed_in(
    alloc: Global,
    unit: &mut Unit,
    format: &str,
    words: &str,
) -> Result<String, AllocError> {
    let format = string(alloc, unit, format, true)?;
    let values = arguments(alloc, unit, words)?;
    let texts = texts(alloc, words)?;
    called(alloc, unit, &texts, &format, &values)
}

fn printed(alloc: Global, format: &str, words: &str) -> Result<String, AllocError> {
    let mut unit = make_unit(alloc)?;
    printed_in(alloc, &mut unit, format, words)
}

#[test]
fn formats_are_printed_or_have_their_case(rt: HostRuntime) -> Result<(), AllocError> {
    for row in rows(PRINTF) {
        let (format, words, wanted) = triple(row);
        expect_text(&rt, printed(rt.alloc(), format, words), wanted, row)?;
    }
    Ok(())
}

// Two calls, the value, and what is given and printed, or the status, or the case.
const CALLS: &str = "
putchar¦321¦65 A
putchar¦g¦U15
exit¦259¦3
exit¦-1¦255
exit¦g¦U15
";

fn put_in(alloc: Global, unit: &mut Unit, value: &Value) -> Result<String, AllocError> {
    let value = putchar(&unit.table, &mut unit.world.output, value);
    shown(alloc, value, &unit.world.output)
}

fn put(alloc: Global, value: &Value) -> Result<String, AllocError> {
    let mut unit = make_unit(alloc)?;
    put_in(alloc, &mut unit, value)
}

fn status(alloc: Global, value: &Value) -> Result<String, AllocError> {
    match exit(value) {
        Ok(status) => format!(in alloc; "{status}"),
        Err(trap) => case(alloc, trap),
    }
}

fn ended(alloc: Global, name: &str, word: &str) -> Result<String, AllocError> {
    let value = value_of(word);
    match name {
        "putchar" => put(alloc, &value),
        _ => status(alloc, &value),
    }
}

#[test]
fn chars_are_put_and_statuses_are_taken_modulo_256(rt: HostRuntime) -> Result<(), AllocError> {
    for row in rows(CALLS) {
        let (name, word, wanted) = triple(row);
        expect_text(&rt, ended(rt.alloc(), name, word), wanted, row)?;
    }
    Ok(())
}
