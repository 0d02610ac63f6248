use std::alloc::{AllocError, Global};
use std::process::Abort;
use std::str::Lines;

/// A file of C with a marker, every sort of declaration and a name that is a type outside and an object inside.
pub(crate) const SAMPLE: &str = "# 1 \"p.c\"
typedef int T;
extern int printf(const char *, ...);
enum color { RED, GREEN = 5, BLUE };
struct pair { T left; T right; };
static struct pair table[2] = { { 1, 2 }, { 3, 4 } };
static T sum(struct pair *p, int n)
{
  T s = 0;
  int i;
  for (i = 0; i < n; i++)
    s += p[i].left * p[i].right;
  return s;
}
int main(void)
{
  long T = BLUE;
  printf(\"%d %ld\\n\", sum(table, 2), T);
  return 0;
}
";

/// The rows of a table: its lines behind the first line end.
pub(crate) fn rows(table: &'static str) -> Lines<'static> {
    match table.split_once('\n') {
        Some((_, rows)) => rows.lines(),
        None => table.lines(),
    }
}

/// The two cells of a row.
pub(crate) fn pair(row: &str) -> (&str, &str) {
    match row.split_once('¦') {
        Some(cells) => cells,
        None => (row, "no second cell"),
    }
}

/// The three cells of a row.
pub(crate) fn triple(row: &str) -> (&str, &str, &str) {
    let (first, rest) = pair(row);
    let (second, third) = pair(rest);
    (first, second, third)
}

/// The bytes that a cell stands for.
pub(crate) fn bytes_of(alloc: Global, cell: &str) -> Result<Vec<u8>, AllocError> {
    let mut bytes = Vec::new(alloc);
    for c in cell.chars() {
        bytes.push(byte_of(c))?;
    }
    Ok(bytes)
}

// The picture of a control character stands for that character, `€` for the byte 80, `ÿ` for the byte ff, and what else is
// in a table for itself.
fn byte_of(c: char) -> u8 {
    let code = c as u32;
    match c {
        '€' => 0x80,
        'ÿ' => 0xff,
        '␡' => 0x7f,
        '␀'..='␟' => (code - 0x2400) as u8,
        '\0'..='\x7f' => code as u8,
        _ => b'?',
    }
}

/// The number that a word spells, or one that no table has.
pub(crate) fn number(word: Option<&str>) -> u32 {
    match word {
        Some(word) => word.parse().unwrap_or(999_999),
        None => 999_999,
    }
}

/// That a row holds.
pub(crate) fn expect_true(rt: &impl Abort, holds: bool, row: &str) {
    assert!(rt; holds, "{row}");
}

/// The one comparison of tables.
pub(crate) fn expect(rt: &impl Abort, found: &[u8], wanted: &[u8], row: &str) {
    assert!(rt; found == wanted, "{row}: {found:?} and not {wanted:?}");
}

/// The same with the bytes that a cell stands for.
pub(crate) fn expect_cell(
    rt: &impl Abort,
    alloc: Global,
    found: &[u8],
    wanted: &str,
    row: &str,
) -> Result<(), AllocError> {
    let wanted = bytes_of(alloc, wanted)?;
    expect(rt, found, &wanted, row);
    Ok(())
}

#[test]
fn a_table_is_split_into_its_cells(rt: HostRuntime) -> Result<(), AllocError> {
    assert!(rt; rows("\na¦b\n¦\nc¦d¦e\n").count() == 3);
    expect(&rt, pair("a¦b").1.as_bytes(), b"b", "a pair");
    expect(&rt, pair("¦").0.as_bytes(), b"", "an empty cell");
    expect(&rt, triple("c¦d¦e").1.as_bytes(), b"d", "a triple");
    let bytes = b"a\x00\n\x7f\x80\xff~";
    expect_cell(&rt, rt.alloc(), bytes, "a␀␊␡€ÿ~", "bytes")
}
