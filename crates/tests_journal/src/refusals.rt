// Replays of files that are missing, can't be read or are not lawful, and outputs that fail. What is wanted was found by hand from the
// order in which files are read.
use crate::checked::{bytes_of, push_file, status_of};
use cr_outside::{MemFiles, MemSink};
use std::alloc::{AllocError, Global};
use std::process::Abort;

/// The status and what is put; then which of the copy, the log and the file are there, the reads that fail, the puts that fail, and the copy,
/// beside a log that leads from two declarations and a main to the last two lines.
const ROWS: &str = "\
0 t.c replay yes accepted 1␊¦c l f¦¦¦int a;␊int b;␊int main(){}␊
3 creduce: no file t.c.orig␊¦l f¦¦¦∅
3 creduce: no file t.log␊¦c f¦¦¦int a;␊int b;␊int main(){}␊
3 creduce: no file t.c␊¦c l¦¦¦int a;␊int b;␊int main(){}␊
3 creduce: no file t.c.orig␊¦¦¦¦∅
3 creduce: no file t.log␊¦c¦3¦¦∅
9 creduce: file fault: t.c.orig␊¦c l f¦1¦¦int a;␊int b;␊int main(){}␊
9 creduce: file fault: t.log␊¦c l f¦2¦¦int a;␊int b;␊int main(){}␊
9 creduce: file fault: t.c␊¦c l f¦3¦¦int a;␊int b;␊int main(){}␊
9 creduce: file fault: t.log␊¦c l f¦2 3¦¦int a;␊int b;␊int main(){}␊
4 creduce: t.c.orig:1: not in the subset: parse 2␊¦c l f¦¦¦∅
4 creduce: t.c.orig:2: not in the subset: name 1␊¦c l f¦¦¦int main(){␊return b;}␊
5 creduce: t.c.orig:1: not defined: U2␊¦c l f¦¦¦int main(){return 1/0;}
3 creduce: no file t.c␊¦c l¦¦¦∅
10 ∅¦c l f¦¦1¦int a;␊int b;␊int main(){}␊
14 ∅¦c l f¦¦1¦int a;␊int b;␊int c;␊int main(){}␊
14 creduce: replay: line 1␊¦c l f¦¦¦int a;␊int b;␊int c;␊int main(){}␊
3 ∅¦c l¦¦1¦int a;␊int b;␊int main(){}␊
5 ∅¦c l f¦¦1¦int main(){return 1/0;}
";

// The numbers in a text, with blanks between them.
fn numbers(alloc: Global, text: &str) -> Result<Vec<u64>, AllocError> {
    let mut numbers = Vec::new(alloc);
    for number in text.split_whitespace() {
        numbers.push(number.parse().unwrap_or(99))?;
    }
    Ok(numbers)
}

fn push_named(
    alloc: Global,
    pairs: &mut Vec<(String, Vec<u8>)>,
    letter: &str,
    copy: &str,
) -> Result<(), AllocError> {
    let (name, text) = match letter {
        "c" => ("t.c.orig", copy),
        "l" => ("t.log", "l 14 0 98 16␊end fixed 98 34␊"),
        _ => ("t.c", "int b;␊int main(){}␊"),
    };
    let bytes = bytes_of(alloc, text)?;
    push_file(alloc, pairs, name, bytes)
}

fn files_of(
    alloc: Global,
    letters: &str,
    failing: &str,
    copy: &str,
) -> Result<MemFiles, AllocError> {
    let mut pairs = Vec::new(alloc);
    for letter in letters.split_whitespace() {
        push_named(alloc, &mut pairs, letter, copy)?;
    }
    Ok(MemFiles::new(pairs, numbers(alloc, failing)?))
}

// The status and what is put.
fn told(
    alloc: Global,
    letters: &str,
    reads: &str,
    puts: &str,
    copy: &str,
) -> Result<Vec<u8>, AllocError> {
    let mut files = files_of(alloc, letters, reads, copy)?;
    let mut out = MemSink::new(alloc, numbers(alloc, puts)?);
    let status = status_of(alloc, 1_000_000, "ltbusciprf", &mut files, &mut out);
    let mut told = format!(in alloc; "{status} ")?.into_bytes();
    told.extend_from_slice(out.bytes())?;
    Ok(told)
}

fn expect_row(rt: &impl Abort, alloc: Global, row: &str) -> Result<(), AllocError> {
    let mut cells = row.split('¦');
    let wanted = bytes_of(alloc, cells.next().unwrap_or(""))?;
    let letters = cells.next().unwrap_or("");
    let reads = cells.next().unwrap_or("");
    let puts = cells.next().unwrap_or("");
    let found = told(alloc, letters, reads, puts, cells.next().unwrap_or(""))?;
    assert!(rt; found.as_slice() == wanted.as_slice(), "{row}: {found:?}");
    Ok(())
}

#[test]
fn the_three_files_are_read_in_order_and_then_the_copy_is_ruled_on(
    rt: HostRuntime,
) -> Result<(), AllocError> {
    for row in ROWS.lines() {
        expect_row(&rt, rt.alloc(), row)?;
    }
    Ok(())
}
