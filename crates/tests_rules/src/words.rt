ghost use Rattle.std.specs.Prelude.{◌≡◌};
ghost use Rattle.cr_check_types.specs.Types.{room_in};

use crate::rows::expect;
use cr_check_constants::Constant;
use cr_check_types::{Shape, Table};
use cr_ints::IntKind;
use cr_syntax::CType;
use std::alloc::{AllocError, Global};
use std::test::Fail;

/// The row of a type in words, from the outermost level to the innermost: `* const char` is a pointer to a constant char, and `S3` the
/// structure of node 3.
pub fn row_of(table: &mut Table, text: &str) -> Result<u32, AllocError> {
    row_between(table, text, ' ')
}

/// The same where something else stands between the words.
pub fn row_between(table: &mut Table, text: &str, between: char) -> Result<u32, AllocError> {
    let mut row = 0;
    for word in text.rsplit(between) {
        row = with_word(table, word, row)?;
    }
    Ok(row)
}

fn with_word(table: &mut Table, word: &str, row: u32) -> Result<u32, AllocError> {
    let count = table.len();
    if row as usize >= count {
        return Ok(0);
    }
    let shape = table.shape(row);
    let shape = match word {
        "const" => Shape {
            constant: true,
            ..shape
        },
        "volatile" => Shape {
            volatile: true,
            ..shape
        },
        _ => Shape::plain(of_word(word, row)),
    };
    if room(shape.of) > table.len() {
        return Ok(0);
    }
    table.add(shape)
}

// Above which number the rows end that a type names.
fn room(of: CType) -> usize
    ensures { result ≡ room_in of }
{
    match of {
        CType::Pointer(row) | CType::Array(row, _) => row as usize + 1,
        _ => 0,
    }
}

fn of_word(word: &str, row: u32) -> CType {
    if word == "*" {
        return CType::Pointer(row);
    }
    if let Some(rest) = word.strip_prefix("[") {
        let count = rest.strip_suffix("]").unwrap_or("");
        return CType::Array(row, count.parse::<u64>().unwrap_or(0));
    }
    if let Some(node) = word.strip_prefix("S") {
        return CType::Struct(number_of(node));
    }
    match word {
        "bool" => CType::Int(IntKind::Bool),
        "char" => CType::Int(IntKind::Char),
        "schar" => CType::Int(IntKind::SChar),
        "short" => CType::Int(IntKind::Short),
        "int" => CType::Int(IntKind::Int),
        "uint" => CType::Int(IntKind::UInt),
        "long" => CType::Int(IntKind::Long),
        "ulong" => CType::Int(IntKind::ULong),
        "llong" => CType::Int(IntKind::LLong),
        _ => CType::Void,
    }
}

fn number_of(word: &str) -> u32 {
    word.parse::<u32>().unwrap_or(0)
}

/// Whether a row has the type that is told in words.
pub fn expect_type(
    alloc: Global,
    table: &Table,
    found: u32,
    row: &str,
    told: &str,
) -> Result<(), Fail> {
    let mut shown = String::new(alloc);
    push_type(&mut shown, table, found)?;
    expect(row, shown.as_str(), told)
}

/// Adds a row's type in words.
pub fn push_type(out: &mut String, table: &Table, row: u32) -> Result<(), AllocError> {
    let mut row = row;
    for _ in 0..100 {
        if row as usize >= table.len() {
            break;
        }
        let shape = table.shape(row);
        push_level(out, shape)?;
        match shape.of {
            CType::Pointer(below) | CType::Array(below, _) => row = below,
            _ => break,
        }
    }
    Ok(())
}

fn push_level(out: &mut String, shape: Shape) -> Result<(), AllocError> {
    out.push_str(qualifiers(shape))?;
    match shape.of {
        CType::Pointer(_) => out.push_str("* "),
        CType::Array(_, 0) => out.push_str("[] "),
        CType::Array(_, count) => write!(out, "[{count}] "),
        CType::Struct(node) => write!(out, "S{node}"),
        CType::Int(kind) => out.push_str(name_of(kind)),
        _ => out.push_str("void"),
    }
}

fn qualifiers(shape: Shape) -> &'static str {
    match (shape.constant, shape.volatile) {
        (true, true) => "const volatile ",
        (true, false) => "const ",
        (false, true) => "volatile ",
        (false, false) => "",
    }
}

/// An integer type in words.
pub fn name_of(kind: IntKind) -> &'static str {
    match kind {
        IntKind::Bool => "bool",
        IntKind::Char => "char",
        IntKind::SChar => "schar",
        IntKind::UChar => "uchar",
        IntKind::Short => "short",
        IntKind::UShort => "ushort",
        IntKind::Int => "int",
        IntKind::UInt => "uint",
        IntKind::Long => "long",
        IntKind::ULong => "ulong",
        IntKind::LLong => "llong",
        IntKind::ULLong => "ullong",
    }
}

/// The constant that a number in words is.
pub fn constant_in(text: &str) -> Constant {
    match text.parse::<i64>() {
        Ok(number) => Constant::Value(i128::from(number)),
        Err(_) => Constant::NotConstant,
    }
}
