ghost use Rattle.cr_ints.specs.IntKind.{Represents};

use cr_ints::IntKind;
use std::alloc::AllocError;
use std::process::Abort;
use std::str::Lines;
use std::test::Fail;

/// The rows of a table: its lines behind the first line end.
pub(crate) fn rows(table: &'static str) -> Lines<'static> {
    match table.split_once('\n') {
        Some((_, rows)) => rows.lines(),
        None => table.lines(),
    }
}

/// The two cells of a row.
pub(crate) fn pair(row: &str) -> (&str, &str) {
    match row.split_once('¦') {
        Some(cells) => cells,
        None => (row, "no second cell"),
    }
}

/// The three cells of a row.
pub(crate) fn triple(row: &str) -> (&str, &str, &str) {
    let (first, rest) = pair(row);
    let (second, third) = pair(rest);
    (first, second, third)
}

/// The first word of a text, and what stands behind it.
pub(crate) fn cut(text: &str) -> (&str, &str) {
    match text.split_once(' ') {
        Some(parts) => parts,
        None => (text, ""),
    }
}

/// The number in a cell.
pub(crate) fn number(cell: &str) -> Result<i128, Fail> {
    Ok(cell.parse::<i128>().ok().ok_or("no number")?)
}

/// The kind with this name.
pub(crate) fn kind(name: &str) -> Result<IntKind, Fail> {
    match name {
        "Bool" => Ok(IntKind::Bool),
        "Char" => Ok(IntKind::Char),
        "SChar" => Ok(IntKind::SChar),
        "UChar" => Ok(IntKind::UChar),
        "Short" => Ok(IntKind::Short),
        "UShort" => Ok(IntKind::UShort),
        "Int" => Ok(IntKind::Int),
        "UInt" => Ok(IntKind::UInt),
        "Long" => Ok(IntKind::Long),
        "ULong" => Ok(IntKind::ULong),
        "LLong" => Ok(IntKind::LLong),
        "ULLong" => Ok(IntKind::ULLong),
        _ => Err(Fail::from("no kind")),
    }
}

/// That a kind has this value.
pub(crate) fn expect_value(rt: &impl Abort, kind: IntKind, value: i128)
    ensures { Represents kind value }
{
    assert!(rt;
        kind.can_represent(value),
        "the kind doesn't represent the value"
    );
}

/// The one assertion of tables.
pub(crate) fn expect(rt: &impl Abort, found: &str, wanted: &str, row: &str) {
    assert!(rt; found == wanted, "{row}: {found}");
}

/// The same of a text that was made.
pub(crate) fn expect_text(
    rt: &impl Abort,
    found: Result<String, AllocError>,
    wanted: &str,
    row: &str,
) -> Result<(), AllocError> {
    let found = found?;
    expect(rt, found.as_str(), wanted, row);
    Ok(())
}
