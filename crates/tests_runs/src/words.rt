// Words that start a run, and words that don't. What is wanted was found by hand from the rules of the command line.
use crate::outcomes::{status_of, words_in};
use crate::rehearsed::silent_bench;
use cr_outside::{MemFiles, MemSink};
use std::alloc::{AllocError, Global};
use std::thread::Threads;

/// Whether lists of words, which stand behind it, give settings where there is one worker: then the run goes on
/// to look for the file, which isn't there.
const STARTS: &str = "\
yes --limit 5 has:b f.c
yes --workers=1 --window=256 --steps=1000000 has:b f.c
no --workers 2 has:b f.c
yes --window=8 -- has:b f.c
yes --steps 7 has:b f.c
yes --steps=1 has:b f.c
yes --steps 100000000 has:b f.c
no --steps 0 has:b f.c
no --steps=100000001 has:b f.c
yes --passes l has:b f.c
yes --passes=tl has:b f.c
yes --passes t has:b f.c
yes --passes ltb has:b f.c
yes --passes ltbu has:b f.c
yes --passes f has:b f.c
yes --passes sclf has:b f.c
yes --passes rl has:b f.c
yes --passes li has:b f.c
yes --passes ip has:b f.c
yes --passes pl has:b f.c
no has:b
";

// The status of a run by one worker, who isn't asked, where there are no files.
fn fileless_status(
    rt: &(impl Threads + Sync),
    alloc: Global,
    words: &str,
) -> Result<u8, AllocError> {
    let list = words_in(alloc, words)?;
    let mut bench = silent_bench(alloc, 1)?;
    let mut files = MemFiles::new(Vec::new(alloc), Vec::new(alloc));
    let mut out = MemSink::new(alloc, Vec::new(alloc));
    Ok(status_of(rt, alloc, &list, &mut files, &mut bench, &mut out))
}

#[test]
fn words_without_settings_start_no_run(rt: HostRuntime) -> Result<(), AllocError> {
    for line in STARTS.lines() {
        let (answer, words) = line.split_once(' ').unwrap_or(("", ""));
        let status = fileless_status(&rt, rt.alloc(), words)?;
        let wanted = if answer == "yes" { 3 } else { 2 };
        assert!(rt; status == wanted, "{line}: {status}");
    }
    Ok(())
}

#[test]
fn no_words_come_to_their_status_also_where_nothing_can_be_put(
    rt: HostRuntime,
) -> Result<(), AllocError> {
    let alloc = rt.alloc();
    let mut bench = silent_bench(alloc, 1)?;
    let mut files = MemFiles::new(Vec::new(alloc), Vec::new(alloc));
    let mut failing = Vec::new(alloc);
    failing.push(1)?;
    let mut out = MemSink::new(alloc, failing);
    let status = status_of(&rt, alloc, &[], &mut files, &mut bench, &mut out);
    assert!(rt;
        status == 2 && out.bytes().is_empty(),
        "not as it should be, or not empty"
    );
    Ok(())
}
