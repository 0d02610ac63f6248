use crate::texts::{
    BOTH, BOTH_TEXT, HEADER_TEXT, byte, bytes_of, cells, disk, expect, make, number, recovered,
};
use std::alloc::{AllocError, Global};
use std::process::Abort;

/// A call on the disk that fails while the journal of a header and a row is made, the byte in the place of each unsynced one, and
/// what stands then. The calls are start; cut, sync, write, sync; and for each record write, sync, write, sync.
const STOPS: &str = "\
1¦0¦none
1¦1¦none
1¦255¦none
2¦0¦none
2¦1¦none
2¦255¦none
3¦0¦none
3¦1¦none
3¦255¦none
4¦0¦none
4¦1¦none
4¦255¦none
5¦0¦none
5¦1¦none
5¦255¦none
6¦0¦none
6¦1¦none
6¦255¦none
7¦0¦none
7¦1¦none
7¦255¦none
8¦0¦none
8¦1¦header
8¦255¦none
9¦0¦none
9¦1¦header
9¦255¦none
10¦0¦header
10¦1¦header
10¦255¦header
11¦0¦header
11¦1¦header
11¦255¦header
12¦0¦header
12¦1¦both
12¦255¦header
13¦0¦header
13¦1¦both
13¦255¦header
14¦0¦both
14¦1¦both
14¦255¦both
";

fn text_of(word: &str) -> &str {
    match word {
        "both" => BOTH_TEXT,
        "header" => HEADER_TEXT,
        _ => "none",
    }
}

fn expect_stop(rt: &impl Abort, alloc: Global, row: &str) -> Result<(), AllocError> {
    let (call, fill, wanted) = cells(row);
    let mut stopped = disk(alloc, b"", &[number(call)])?;
    let made = make(&mut stopped, alloc);
    assert!(rt; made.is_ok() == (call == "14"), "{row}");
    let image = stopped.image(alloc, byte(fill))?;
    let mut after = disk(alloc, &image, &[])?;
    let found = recovered(alloc, &mut after)?;
    expect(rt, found.as_bytes(), text_of(wanted).as_bytes(), row);
    Ok(())
}

#[test]
fn each_stop_leaves_a_front_of_the_records(rt: HostRuntime) -> Result<(), AllocError> {
    for row in STOPS.lines() {
        expect_stop(&rt, rt.alloc(), row)?;
    }
    Ok(())
}

// Recovery of a journal whose last gate was torn, on a disk that fails at a call, and again on the image that it leaves.
fn expect_second(
    rt: &impl Abort,
    alloc: Global,
    call: u64,
    fill: u8,
    wanted: &str,
) -> Result<(), AllocError> {
    let mut bytes = bytes_of(alloc, BOTH)?;
    if let Some(gate) = bytes.last_mut() {
        *gate = 255;
    }
    let mut first = disk(alloc, &bytes, &[call])?;
    let found = recovered(alloc, &mut first)?;
    expect(
        rt,
        found.as_bytes(),
        wanted.as_bytes(),
        "the first recovery",
    );
    let image = first.image(alloc, fill)?;
    let mut second = disk(alloc, &image, &[])?;
    let found = recovered(alloc, &mut second)?;
    expect(
        rt,
        found.as_bytes(),
        BOTH_TEXT.as_bytes(),
        "the second recovery",
    );
    Ok(())
}

#[test]
fn a_recovery_that_is_stopped_loses_nothing(rt: HostRuntime) -> Result<(), AllocError> {
    let alloc = rt.alloc();
    for fill in [0, 1, 255] {
        // The start; a sync, a read of each record, one of the gate behind; its write and a sync.
        expect_second(&rt, alloc, 1, fill, "not started")?;
        for call in 2..=7 {
            expect_second(&rt, alloc, call, fill, "disk")?;
        }
        expect_second(&rt, alloc, 8, fill, BOTH_TEXT)?;
    }
    Ok(())
}
