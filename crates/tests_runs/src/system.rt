// A run on the files of the operating system.
use crate::outcomes::{status_of, words_of};
use cr_pool::Bench;
use creduce_system::{ProcessJudge, StdFiles, StdOut};
use std::alloc::AllocError;
use std::thread::Threads;
use std::{fs, io};

/// A file that is reduced, with the text that it and the files beside it have then.
const AFTER: [(&str, &str); 3] = [
    ("creduce-test-run.c", "int main(){}"),
    (
        "creduce-test-run.c.orig",
        "int main(){\nint a;\nint b;\nint c;\n}\n",
    ),
    (
        "creduce-test-run.c.log",
        "l 13 1 99 16\nl 14 1 65 19\nf 0 0 63 41\nend fixed 63 78\n",
    ),
];

fn bench(rt: &HostRuntime) -> Result<Bench<ProcessJudge<'_, HostRuntime>>, AllocError> {
    let mut judges = Vec::new(rt.alloc());
    judges.push(ProcessJudge::new(rt, 0, "of-a-test", 0o644))?;
    judges.push(ProcessJudge::new(rt, 1, "of-a-test", 0o644))?;
    Bench::new(rt.alloc(), judges)
}

// The status of a run by two workers, on threads of the second handle.
fn status(rt: &HostRuntime, threads: &(impl Threads + Sync)) -> Result<u8, AllocError> {
    let alloc = rt.alloc();
    let words = words_of(alloc, 2, 256, "has:main(){ creduce-test-run.c")?;
    let mut bench = bench(rt)?;
    let mut files = StdFiles::new(rt, Some("creduce-test-run.c"));
    let mut out = StdOut::new(rt, alloc);
    Ok(status_of(threads, alloc, &words, &mut files, &mut bench, &mut out))
}

// Whether a file, which is removed, had this text.
fn had(rt: &HostRuntime, name: &str, text: &str) -> io::Result<bool> {
    let found = fs::read(rt, name)?;
    fs::remove_file(rt, name)?;
    Ok(found.as_slice() == text.as_bytes())
}

#[test]
fn a_real_file_is_reduced_beside_its_copy_and_its_log(rt: HostRuntime) -> io::Result<()> {
    fs::write(&rt, AFTER[0].0, AFTER[1].1.as_bytes())?;
    let status = status(&rt, &rt)?;
    assert!(rt; status == 0, "{status}");
    for (name, text) in AFTER {
        assert!(rt; had(&rt, name, text)?, "{name}");
    }
    Ok(())
}
