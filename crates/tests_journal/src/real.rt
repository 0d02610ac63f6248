use crate::texts::{BOTH, bytes_of, expect, make};
use cr_outside::{FileFault, Files};
use cr_outside_disk::{Disk, DiskFault};
use creduce_system::StdDisk;
use std::alloc::Global;
use std::fs;
use std::test::Fail;

const NAME: &str = "f.c.journal";

#[test]
fn a_real_file_is_a_journal(rt: HostRuntime) -> Result<(), Fail> {
    let alloc = rt.alloc();
    let mut disk = StdDisk::new(&rt, Some("f.c"));
    make(&mut disk, alloc)?;
    // A second run finds it locked.
    let mut second = StdDisk::new(&rt, Some("f.c"));
    assert!(rt;
        second.start(alloc, NAME) == Err(DiskFault::Failed),
        "the disk answered otherwise"
    );
    // A file beside it is written through.
    assert!(rt;
        disk_file(&mut disk, alloc) == Ok(()),
        "the disk answered otherwise"
    );
    let wanted = bytes_of(alloc, BOTH)?;
    expect(&rt, &fs::read(&rt, NAME)?, &wanted, NAME);
    expect(&rt, &fs::read(&rt, "f.c.orig")?, b"int a;", "f.c.orig");
    fs::remove_file(&rt, NAME)?;
    fs::remove_file(&rt, "f.c.orig")?;
    Ok(())
}

fn disk_file<W: Files>(files: &mut W, alloc: Global) -> Result<(), FileFault> {
    files.write(alloc, "f.c.orig", b"int a;")
}
