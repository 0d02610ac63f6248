use std::test::Fail;

// Told by a row that lacks a part. It is never found, so that no such row passes.
const LACKING: &str = "the row lacks a part";

/// The two parts of a row, around an arrow.
pub fn pair<'a>(row: &'a str, arrow: &str) -> (&'a str, &'a str) {
    match row.split_once(arrow) {
        Some(parts) => parts,
        None => (row, LACKING),
    }
}

/// The two parts of a row before an arrow, with a mark between them, and the one behind it.
pub fn triple<'a>(row: &'a str, mark: &str, arrow: &str) -> (&'a str, &'a str, &'a str) {
    let (given, told) = pair(row, arrow);
    match given.split_once(mark) {
        Some((first, second)) => (first, second, told),
        None => (given, "", LACKING),
    }
}

/// The three parts of a row before an arrow, with marks between them, and the one behind it.
pub fn quadruple<'a>(
    row: &'a str,
    mark: &str,
    arrow: &str,
) -> (&'a str, &'a str, &'a str, &'a str) {
    let (first, rest, told) = triple(row, mark, arrow);
    match rest.split_once(mark) {
        Some((second, third)) => (first, second, third, told),
        None => (first, rest, "", LACKING),
    }
}

/// Whether a text begins with a word, and what is behind it.
pub fn without<'a>(text: &'a str, word: &str) -> (bool, &'a str) {
    match text.strip_prefix(word) {
        Some(rest) => (true, rest),
        None => (false, text),
    }
}

/// An answer in words.
pub fn yes_or_no(so: bool) -> &'static str {
    if so { "yes" } else { "no" }
}

/// The one assertion of tables.
pub fn expect(row: &str, found: &str, told: &str) -> Result<(), Fail> {
    if found == told {
        Ok(())
    } else {
        Err(Fail::new(format_args!("{row}: {found}")))
    }
}
