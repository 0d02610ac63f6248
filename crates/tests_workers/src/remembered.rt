// How much a bench keeps: 256 verdicts, each on a file of at most 65,536 bytes. So the files are 16 MiB together at most. On a file
// whose verdict is kept the law isn't asked to rule again, and no judge is asked.
ghost use Rattle.std.specs.Prelude.{◌≡◌, ◌<◌, ◌≤◌, [], IfOk, None, length};

use crate::epochs::{rejected_all, size_of};
use cr_cursor::{Law, NoMemory, Passes, Ruling, Stop, positions};
use cr_outside::{Answer, Judge, Test};
use cr_pool::{Bench, Job};
use cr_tokens::{Tokens, read};
use pass_list::CPasses;
use std::alloc::Global;
use std::process::Abort;
use std::sync::atomic::{AtomicU64, Ordering};
use std::thread::Threads;

// Says no, and counts its calls.
#[derive(Drop)]
struct Refusing<'a> {
    calls: &'a AtomicU64,
    asked: u64,
}

impl<'a> Judge for Refusing<'a> {
    type Key = ();

    ghost key = { λ _. tt };

    ghost says = { λ _ _ _ _. None };

    ghost asked = { λ j. j.asked };

    ghost calls = { λ _. None };

    ghost faults = { λ _. 0 };

    fn ask(&mut self, _alloc: Global, _test: &str, _name: &str, _file: &[u8]) -> Answer {
        self.asked = self.asked.saturating_add(1);
        self.calls.fetch_add(1, Ordering::SeqCst);
        Answer::No
    }
}

// Finds every file lawful, and counts its rulings.
#[derive(Drop)]
struct Anything<'a> {
    rulings: &'a AtomicU64,
}

impl<'a> Law for Anything<'a> {
    ghost lawful = { λ _ _. Unit {0} };

    ghost reasons = { λ _ _ _. Unit {0} };

    fn rule<S: Stop>(&self, alloc: Global, file: &[u8], stop: &mut S) -> Ruling {
        match read(alloc, file) {
            Ok(tokens) => self.rule_on_tokens(alloc, file, &tokens, stop),
            Err(_) => Ruling::NoMemory,
        }
    }

    fn rule_on_tokens<S: Stop>(
        &self,
        _alloc: Global,
        _file: &[u8],
        _tokens: &Tokens,
        _stop: &mut S,
    ) -> Ruling {
        self.rulings.fetch_add(1, Ordering::SeqCst);
        Ruling::Lawful
    }
}

fn bench_of(alloc: Global, calls: &AtomicU64) -> Result<Bench<Refusing<'_>>, NoMemory>
    ensures some { IfOk result (λ bench. 0 < length bench.judges) }
    ensures kept { IfOk result (λ bench. bench.kept ≡ []) }
{
    let mut judges = Vec::new(alloc);
    judges.push(Refusing { calls, asked: 0 })?;
    Bench::new(alloc, judges)
}

// How many calls a judge had, and a law, if as many.
fn both(calls: &AtomicU64, rulings: &AtomicU64) -> Option<u64> {
    let asked = calls.load(Ordering::SeqCst);
    if rulings.load(Ordering::SeqCst) == asked {
        Some(asked)
    } else {
        None
    }
}

// How many calls the judge had, and the law too, after an epoch of the variants that lack one of the last lines, and after another one of
// the first of them.
fn asked_twice<R: Threads + Abort + Sync>(
    rt: &R,
    alloc: Global,
    file: &[u8],
    lines: u64,
    again: u64,
) -> Result<(Option<u64>, Option<u64>), NoMemory>
    requires { (again ≤ lines) × (lines ≤ 4096) }
{
    assert!(rt; file.len() <= 1_048_576, "the text is too long");
    let size = size_of(rt, alloc, file)?;
    let question = Test::Program(String::from_str(alloc, "t")?);
    let passes = CPasses::lines();
    let prep = passes.prepare(alloc, file)?;
    let count = positions(&passes, &prep);
    assert!(rt; lines <= count, "fewer positions than are looked at");
    let calls = AtomicU64::new(0);
    let rulings = AtomicU64::new(0);
    let law = Anything { rulings: &rulings };
    let mut bench = bench_of(alloc, &calls)?;
    let mut job = Job {
        passes: &passes,
        prep: &prep,
        law: &law,
        question: &question,
        name: "t.c",
        file,
        size,
        start: count - lines,
        len: lines,
        workers: 1,
    };
    let first = bench.epoch(rt, alloc, &job);
    let asked = both(&calls, &rulings);
    job.len = again;
    let second = bench.epoch(rt, alloc, &job);
    assert!(rt;
        rejected_all(&first, lines) && rejected_all(&second, again),
        "the epoch didn't reject all"
    );
    Ok((asked, both(&calls, &rulings)))
}

fn push_front(alloc: Global, file: &mut Vec<u8>, number: u64) -> Result<(), NoMemory> {
    let front = format!(in alloc; "int a{number};/*")?;
    file.extend_from_slice(front.as_bytes())
}

// One line more, of so many bytes, with this number.
fn push_line(alloc: Global, file: &mut Vec<u8>, number: u64, bytes: u64) -> Result<(), NoMemory> {
    push_front(alloc, file, number)?;
    for _ in 15..bytes {
        file.push(b'x')?;
    }
    file.extend_from_slice(b"*/\n")
}

/// A file of lines of so many bytes, with the numbers from 1,000 to before another.
pub(crate) fn lines(alloc: Global, end: u64, bytes: u64) -> Result<Vec<u8>, NoMemory> {
    let mut file = Vec::new(alloc);
    for line in 1000..end {
        push_line(alloc, &mut file, line, bytes)?;
    }
    Ok(file)
}

// Of so many lines, each of so many bytes, the variants that lack one of the last are ruled on and asked about, and then the first of
// them again.
fn expect_calls<R: Threads + Abort + Sync>(
    rt: &R,
    alloc: Global,
    file: &[u8],
    asked: (u64, u64),
    wanted: (u64, u64),
) -> Result<(), NoMemory>
    requires { (asked.1 ≤ asked.0) × (asked.0 ≤ 4096) }
{
    let seen = asked_twice(rt, alloc, file, asked.0, asked.1)?;
    assert!(rt;
        seen == (Some(wanted.0), Some(wanted.1)),
        "other calls were seen"
    );
    Ok(())
}

// So the files that are kept are 16 MiB together.
#[test]
fn of_256_files_of_65536_bytes_each_is_kept(rt: HostRuntime) -> Result<(), NoMemory> {
    let file = lines(rt.alloc(), 5097, 16)?;
    assert!(rt; file.len() == 65_552, "{} and not 65_552", file.len());
    expect_calls(&rt, rt.alloc(), &file, (256, 256), (256, 256))
}

#[test]
fn of_257_files_the_first_is_forgotten(rt: HostRuntime) -> Result<(), NoMemory> {
    let file = lines(rt.alloc(), 1257, 16)?;
    expect_calls(&rt, rt.alloc(), &file, (257, 2), (257, 258))
}

#[test]
fn a_longer_file_is_not_kept(rt: HostRuntime) -> Result<(), NoMemory> {
    let file = lines(rt.alloc(), 1003, 32_769)?;
    expect_calls(&rt, rt.alloc(), &file, (3, 2), (3, 5))
}
