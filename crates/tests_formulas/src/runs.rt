// Runs by formulas on the file `t.c` in memory. What is wanted was found by hand, from the rules of the passes and of the reduction.
use crate::silent::silent_bench;
use crate::texts::{bytes_of, words_of};
use cr_main::run_more;
use cr_outside::{Files, Judge, MemFiles, MemSink, ReadAnswer};
use cr_outside_disk::MemDisk;
use cr_pool::Bench;
use std::alloc::{AllocError, Global};
use std::process::Abort;
use std::sync::Wait;
use std::thread::Threads;

/// What a run comes to: its status, what it puts, and the file, its copy and its log, where they are there.
pub(crate) type Outcome = (
    u8,
    Vec<u8>,
    Option<Vec<u8>>,
    Option<Vec<u8>>,
    Option<Vec<u8>>,
);

/// The words, the status, what is put, the file before and after the run, and the log, where one is written.
const ROWS: &str = r#"
if:same␠same t.c¦2¦creduce: usage: creduce [--workers N] [--window N] [--limit N] [--steps N] [--passes LETTERS] TEST FILE␊¦int main(){}¦int main(){}
if: t.c¦2¦creduce: usage: creduce [--workers N] [--window N] [--limit N] [--steps N] [--passes LETTERS] TEST FILE␊¦int main(){}¦int main(){}
if:ends(3) t.c¦6¦creduce: the test says no to t.c␊¦int main(void){return 0;}␊¦int main(void){return 0;}␊
if:not(same) t.c¦6¦creduce: the test says no to t.c␊¦int main(void){return 0;}␊¦int main(void){return 0;}␊
if:same s.c¦3¦creduce: no file s.c␊¦int main(){}¦int main(){}
if:same t.c¦4¦creduce: t.c:2: not in the subset: name 1␊¦int main(){␊return b;}␊¦int main(){␊return b;}␊
if:not(same) t.c¦5¦creduce: t.c:1: not defined: U2␊¦int main(){return 1/0;}¦int main(){return 1/0;}
if:same --steps=100 t.c¦5¦creduce: t.c:1: left the profile: N1␊¦int main(){for(int i=0;i<99;i++);}¦int main(){for(int i=0;i<99;i++);}
if:ends(0) t.c¦0¦t.c size 109 to 63 accepted 4 turns 85 fixed␊¦int main(void){return 0;}␊¦int main(){}¦t 3 6 85 32␊t 4 3 73 37␊t 4 5 64 40␊f 0 0 63 48␊end fixed 63 85␊
if:same t.c¦0¦t.c size 109 to 63 accepted 4 turns 85 fixed␊¦int main(void){return 0;}␊¦int main(){}¦t 3 6 85 32␊t 4 3 73 37␊t 4 5 64 40␊f 0 0 63 48␊end fixed 63 85␊
--workers 1 if:same t.c¦0¦t.c size 109 to 63 accepted 4 turns 85 fixed␊¦int main(void){return 0;}␊¦int main(){}¦t 3 6 85 32␊t 4 3 73 37␊t 4 5 64 40␊f 0 0 63 48␊end fixed 63 85␊
--standing if:same t.c¦0¦t.c size 109 to 63 accepted 4 turns 85 fixed␊¦int main(void){return 0;}␊¦int main(){}¦t 3 6 85 32␊t 4 3 73 37␊t 4 5 64 40␊f 0 0 63 48␊end fixed 63 85␊
--any-order if:same t.c¦0¦t.c size 109 to 63 accepted 4 turns 85 fixed␊¦int main(void){return 0;}␊¦int main(){}¦t 3 6 85 32␊t 4 3 73 37␊t 4 5 64 40␊f 0 0 63 48␊end fixed 63 85␊
--any-order --standing if:same t.c¦0¦t.c size 109 to 63 accepted 4 turns 85 fixed␊¦int main(void){return 0;}␊¦int main(){}¦t 3 6 85 32␊t 4 3 73 37␊t 4 5 64 40␊f 0 0 63 48␊end fixed 63 85␊
--journal if:same t.c¦0¦t.c size 109 to 63 accepted 4 turns 85 fixed␊¦int main(void){return 0;}␊¦int main(){}¦t 3 6 85 32␊t 4 3 73 37␊t 4 5 64 40␊f 0 0 63 48␊end fixed 63 85␊
--resume --any-order if:same t.c¦0¦t.c size 109 to 63 accepted 4 turns 85 fixed␊¦int main(void){return 0;}␊¦int main(){}¦t 3 6 85 32␊t 4 3 73 37␊t 4 5 64 40␊f 0 0 63 48␊end fixed 63 85␊
--passes l if:same t.c¦0¦t.c size 132 to 64 accepted 1 turns 31 fixed␊¦int a;␊int b;␊int main(){}␊¦int main(){}␊¦l 13 0 64 14␊end fixed 64 31␊
--passes l --limit 0 if:same t.c¦7¦t.c size 132 to 132 accepted 0 turns 0 limit␊¦int a;␊int b;␊int main(){}␊¦int a;␊int b;␊int main(){}␊¦end limit 132 0␊
--passes l if:and(same,has("b")) t.c¦0¦t.c size 167 to 99 accepted 2 turns 40 fixed␊¦int main(){␊int a;␊int b;␊int c;␊}␊¦int main(){␊int b;␊}␊¦l 14 1 133 19␊l 14 2 99 21␊end fixed 99 40␊
--limit=19 --passes l if:and(same,has("b")) t.c¦7¦t.c size 167 to 133 accepted 1 turns 19 limit␊¦int main(){␊int a;␊int b;␊int c;␊}␊¦int main(){␊int b;␊int c;␊}␊¦l 14 1 133 19␊end limit 133 19␊
--passes l if:same t.c¦0¦t.c size 329 to 329 accepted 0 turns 23 fixed␊¦int printf(const char*,...);␊int main(){␊printf("a");␊printf("b");␊return 3;␊}␊¦int printf(const char*,...);␊int main(){␊printf("a");␊printf("b");␊return 3;␊}␊¦end fixed 329 23␊
--passes l if:ends(3) t.c¦0¦t.c size 329 to 101 accepted 2 turns 39 fixed␊¦int printf(const char*,...);␊int main(){␊printf("a");␊printf("b");␊return 3;␊}␊¦int main(){␊return 3;␊}␊¦l 13 1 213 16␊l 14 0 101 18␊end fixed 101 39␊
--passes l if:prints("a") t.c¦0¦t.c size 329 to 235 accepted 2 turns 42 fixed␊¦int printf(const char*,...);␊int main(){␊printf("a");␊printf("b");␊return 3;␊}␊¦int printf(const char*,...);␊int main(){␊printf("a");␊}␊¦l 14 3 271 21␊l 14 3 235 22␊end fixed 235 42␊
--passes l if:and(not(prints("a")),prints("b")) t.c¦6¦creduce: the test says no to t.c␊¦int printf(const char*,...);␊int main(){␊printf("a");␊printf("b");␊return 3;␊}␊¦int printf(const char*,...);␊int main(){␊printf("a");␊printf("b");␊return 3;␊}␊
"#;

// The status of a run. It tells nothing else of what is ensured, which no test needs and each proof of a caller would carry.
fn status_of<J: Judge + Send + Drop>(
    rt: &(impl Threads + Wait + Sync),
    alloc: Global,
    words: &[String],
    world: &mut MemDisk,
    bench: &mut Bench<J>,
    out: &mut MemSink,
) -> u8 {
    run_more(rt, alloc, words, world, bench, out)
}

// What a file has, where it is there.
fn content(alloc: Global, files: &mut MemDisk, name: &str) -> Option<Vec<u8>> {
    match files.read(alloc, name, 2_000_000) {
        ReadAnswer::Bytes(bytes) => Some(bytes),
        ReadAnswer::Absent | ReadAnswer::Failed | ReadAnswer::NoMemory => None,
    }
}

// The file, and an empty journal.
fn one_file(alloc: Global, file: Vec<u8>) -> Result<MemDisk, AllocError> {
    let name = String::from_str(alloc, "t.c")?;
    let mut pairs = Vec::new(alloc);
    pairs.push((name, file))?;
    let files = MemFiles::new(pairs, Vec::new(alloc));
    Ok(MemDisk::beside(files, Vec::new(alloc)))
}

fn seen(alloc: Global, status: u8, put: &[u8], files: &mut MemDisk) -> Result<Outcome, AllocError> {
    let put = put.to_vec(alloc)?;
    let after = content(alloc, files, "t.c");
    let copy = content(alloc, files, "t.c.orig");
    let log = content(alloc, files, "t.c.log");
    Ok((status, put, after, copy, log))
}

/// What a run of these words comes to, by judges who fail if they are asked at all.
pub(crate) fn outcome(
    rt: &(impl Threads + Wait + Sync),
    alloc: Global,
    words: &[String],
    file: Vec<u8>,
) -> Result<Outcome, AllocError> {
    let mut bench = silent_bench(alloc)?;
    let mut files = one_file(alloc, file)?;
    let mut out = MemSink::new(alloc, Vec::new(alloc));
    let status = status_of(rt, alloc, words, &mut files, &mut bench, &mut out);
    seen(alloc, status, out.bytes(), &mut files)
}

// The copy of the file, and its log, where one is written.
fn written(
    alloc: Global,
    before: &str,
    log: Option<&str>,
) -> Result<(Option<Vec<u8>>, Option<Vec<u8>>), AllocError> {
    let Some(log) = log else {
        return Ok((None, None));
    };
    let copy = bytes_of(alloc, before)?;
    let log = bytes_of(alloc, log)?;
    Ok((Some(copy), Some(log)))
}

// What is wanted of a run, as a row tells it behind the words.
fn wanted(
    alloc: Global,
    before: &str,
    status: &str,
    put: &str,
    rest: &str,
) -> Result<Outcome, AllocError> {
    let mut cells = rest.split('¦');
    let put = bytes_of(alloc, put)?;
    let after = bytes_of(alloc, cells.next().unwrap_or(""))?;
    let (copy, log) = written(alloc, before, cells.next())?;
    Ok((status.parse().unwrap_or(99), put, Some(after), copy, log))
}

/// A row: the words, the status, what is put, the file before, and the rest.
pub(crate) fn expect_row(
    rt: &(impl Abort + Threads + Wait + Sync),
    alloc: Global,
    row: &str,
) -> Result<(), AllocError> {
    let (text, behind) = row.split_once('¦').unwrap_or(("", ""));
    let (status, behind) = behind.split_once('¦').unwrap_or(("", ""));
    let (put, behind) = behind.split_once('¦').unwrap_or(("", ""));
    let (before, rest) = behind.split_once('¦').unwrap_or(("", ""));
    let words = words_of(alloc, text)?;
    let wanted = wanted(alloc, before, status, put, rest)?;
    let found = outcome(rt, alloc, &words, bytes_of(alloc, before)?)?;
    assert!(rt; found == wanted, "{row}: {found:?}");
    Ok(())
}

#[test]
fn a_run_by_a_formula_comes_to_what_its_answers_say(rt: HostRuntime) -> Result<(), AllocError> {
    for row in ROWS.trim_start().lines() {
        expect_row(&rt, rt.alloc(), row)?;
    }
    Ok(())
}
