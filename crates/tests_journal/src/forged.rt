// Logs of 100,000 lines that lead nowhere. What is wanted was found by hand from the rules.
use crate::checked::{bytes_of, expect_line, repeated};
use std::alloc::{AllocError, Global};
use std::process::Abort;

/// What is put, the line that stands 100,000 times, and the last line.
const LOGS: &str = "\
creduce: replay: line 1¦rubbish␊¦end fixed 98 34␊
creduce: replay: line 1¦␊¦end fixed 98 34␊
creduce: replay: line 1¦l 99 18446744073709551615 18446744073709551615 18446744073709551615␊¦end fixed 98 34␊
creduce: replay: line 2¦l 14 0 98 16␊¦end fixed 98 34␊
creduce: replay: line 100001¦l 14 0 98 16␊¦∅
creduce: replay: line 2¦end fixed 98 34␊¦∅
";

fn expect_log(rt: &impl Abort, alloc: Global, wanted: &str, log: &[u8]) -> Result<(), AllocError> {
    let copy = bytes_of(alloc, "int a;␊int b;␊int main(){}␊")?;
    let file = bytes_of(alloc, "int b;␊int main(){}␊")?;
    expect_line(rt, alloc, wanted, &copy, log, &file)
}

fn log_of(alloc: Global, line: &str, last: &str) -> Result<Vec<u8>, AllocError> {
    let mut log = repeated(alloc, 100_000, line)?;
    let last = bytes_of(alloc, last)?;
    log.extend_from_slice(&last)?;
    Ok(log)
}

fn expect_row(rt: &impl Abort, alloc: Global, row: &str) -> Result<(), AllocError> {
    let mut cells = row.split('¦');
    let wanted = cells.next().unwrap_or("");
    let line = cells.next().unwrap_or("");
    let log = log_of(alloc, line, cells.next().unwrap_or(""))?;
    expect_log(rt, alloc, wanted, &log)
}

#[test]
fn a_log_of_many_lines_is_refused_at_its_first_that_fails(
    rt: HostRuntime,
) -> Result<(), AllocError> {
    for row in LOGS.lines() {
        expect_row(&rt, rt.alloc(), row)?;
    }
    Ok(())
}
