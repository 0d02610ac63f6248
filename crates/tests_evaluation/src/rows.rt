use std::alloc::AllocError;
use std::process::Abort;
use std::str::Lines;

/// The rows of a table: its lines behind the first line end.
pub(crate) fn rows(table: &'static str) -> Lines<'static> {
    match table.split_once('\n') {
        Some((_, rows)) => rows.lines(),
        None => table.lines(),
    }
}

/// The two cells of a row.
pub(crate) fn pair(row: &str) -> (&str, &str) {
    match row.split_once('¦') {
        Some(cells) => cells,
        None => (row, "no second cell"),
    }
}

/// The three cells of a row.
pub(crate) fn triple(row: &str) -> (&str, &str, &str) {
    let (first, rest) = pair(row);
    let (second, third) = pair(rest);
    (first, second, third)
}

// The one assertion of tables.
fn expect(rt: &impl Abort, found: &str, wanted: &str, row: &str) {
    assert!(rt; found == wanted, "{row}: {found}");
}

/// That a text was made, and is this one.
pub(crate) fn expect_text(
    rt: &impl Abort,
    found: Result<String, AllocError>,
    wanted: &str,
    row: &str,
) -> Result<(), AllocError> {
    let found = found?;
    expect(rt, found.as_str(), wanted, row);
    Ok(())
}
