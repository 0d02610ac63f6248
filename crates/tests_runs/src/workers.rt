// Runs by several workers on real threads.
ghost use Rattle.std.specs.Prelude.{◌≡◌, ◌≤◌, IfOk, None, length};

use crate::outcomes::{Outcome, content, more_status_of, one_file, outcome, words_of};
use cr_outside::{Answer, Judge, MemFiles, MemSink};
use cr_outside_disk::MemDisk;
use cr_pool::Bench;
use std::alloc::{AllocError, Global};
use std::process::Abort;
use std::sync::Wait;
use std::sync::atomic::{AtomicU64, Ordering};
use std::thread;
use std::thread::Threads;

/// Three lines of main, of which a judge that says no keeps all.
const KEPT: &[u8] = b"int main(){\nint a;\nint b;\nint c;\n}\n";

const KEPT_LOG: &[u8] = b"end fixed 167 22\n";

// Says yes to the first call and no to all others. The call that begins second ends only once a third one has begun.
#[derive(Drop)]
struct Waiting<'a> {
    begun: &'a AtomicU64,
    missed: &'a AtomicU64,
    asked: u64,
}

impl<'a> Waiting<'a> {
    fn waits_in_vain(&self) -> bool {
        for _ in 0..10_000_000 {
            if self.begun.load(Ordering::SeqCst) >= 3 {
                return false;
            }
            thread::yield_now();
        }
        true
    }
}

impl<'a> Judge for Waiting<'a> {
    type Key = ();

    ghost key = { λ _. tt };

    ghost says = { λ _ _ _ _. None };

    ghost asked = { λ j. j.asked };

    ghost calls = { λ _. None };

    ghost faults = { λ _. 0 };

    fn ask(&mut self, _alloc: Global, _test: &str, _name: &str, _file: &[u8]) -> Answer {
        self.asked = self.asked.saturating_add(1);
        match self.begun.fetch_add(1, Ordering::SeqCst) {
            0 => return Answer::Yes,
            1 if self.waits_in_vain() => self.missed.store(1, Ordering::SeqCst),
            _ => {}
        }
        Answer::No
    }
}

fn waiting_bench<'a>(
    alloc: Global,
    begun: &'a AtomicU64,
    missed: &'a AtomicU64,
) -> Result<Bench<Waiting<'a>>, AllocError> {
    let mut judges = Vec::new(alloc);
    judges.push(Waiting {
        begun,
        missed,
        asked: 0,
    })?;
    judges.push(Waiting {
        begun,
        missed,
        asked: 0,
    })?;
    Bench::new(alloc, judges)
}

fn expect_kept(
    rt: &(impl Abort + Threads + Sync),
    alloc: Global,
    bench: &mut Bench<Waiting<'_>>,
) -> Result<(), AllocError> {
    let words = words_of(alloc, 2, 256, "--passes l w.sh t.c")?;
    let (status, _, after, _, log) = outcome(rt, alloc, &words, KEPT, bench)?;
    assert!(rt; status == 0, "{status} and not 0");
    assert!(rt;
        after.as_deref() == Some(KEPT) && log.as_deref() == Some(KEPT_LOG),
        "another file, or another log"
    );
    Ok(())
}

#[test]
fn trials_of_a_run_go_on_at_once(rt: HostRuntime) -> Result<(), AllocError> {
    let begun = AtomicU64::new(0);
    let missed = AtomicU64::new(0);
    let mut bench = waiting_bench(rt.alloc(), &begun, &missed)?;
    expect_kept(&rt, rt.alloc(), &mut bench)?;
    assert!(rt;
        missed.load(Ordering::SeqCst) == 0,
        "a trial waited for another one in vain"
    );
    Ok(())
}

// The log that a run by standing workers leaves.
fn standing_log(
    rt: &(impl Threads + Wait + Sync),
    alloc: Global,
    bench: &mut Bench<Waiting<'_>>,
) -> Result<Option<Vec<u8>>, AllocError> {
    let words = words_of(alloc, 2, 256, "--standing --passes l w.sh t.c")?;
    let pairs = one_file(alloc, "t.c", KEPT.to_vec(alloc)?)?;
    let mut world = MemDisk::beside(MemFiles::new(pairs, Vec::new(alloc)), Vec::new(alloc));
    let mut out = MemSink::new(alloc, Vec::new(alloc));
    more_status_of(rt, alloc, &words, &mut world, bench, &mut out);
    Ok(content(alloc, &mut world, "t.c.log"))
}

#[test]
fn trials_of_a_run_by_standing_workers_go_on_at_once(rt: HostRuntime) -> Result<(), AllocError> {
    let begun = AtomicU64::new(0);
    let missed = AtomicU64::new(0);
    let mut bench = waiting_bench(rt.alloc(), &begun, &missed)?;
    let log = standing_log(&rt, rt.alloc(), &mut bench)?;
    assert!(rt;
        log.as_deref() == Some(KEPT_LOG),
        "another file, or another log"
    );
    assert!(rt;
        missed.load(Ordering::SeqCst) == 0,
        "a trial waited for another one in vain"
    );
    Ok(())
}

// Says yes to one file; of all others the answer follows from the bytes and a seed, as if by chance.
#[derive(Drop)]
struct Chance {
    whole: Vec<u8>,
    seed: u64,
    asked: u64,
    faults: u64,
}

// The next number of a row that looks like one by chance.
fn after(seed: u64) -> u64 {
    seed.wrapping_mul(6_364_136_223_846_793_005)
        .wrapping_add(1_442_695_040_888_963_407)
}

impl Chance {
    // Yes to one file of three; of the others the test fails on one of eight where the seed is odd.
    fn drawn(&self, file: &[u8]) -> Answer {
        if file == self.whole.as_slice() {
            return Answer::Yes;
        }
        let mut drawn = after(self.seed);
        for byte in file {
            drawn = after(drawn ^ u64::from(*byte));
        }
        match (drawn >> 33) % 96 {
            0..=31 => Answer::Yes,
            32..=39 if self.seed % 2 == 1 => Answer::Failed,
            _ => Answer::No,
        }
    }
}

impl Judge for Chance {
    type Key = ();

    ghost key = { λ _. tt };

    ghost says = { λ _ _ _ _. None };

    ghost asked = { λ j. j.asked };

    ghost calls = { λ _. None };

    ghost faults = { λ j. j.faults };

    fn ask(&mut self, _alloc: Global, _test: &str, _name: &str, file: &[u8]) -> Answer {
        self.asked = self.asked.saturating_add(1);
        let answer = self.drawn(file);
        if answer == Answer::Failed {
            self.faults = self.faults.saturating_add(1);
        }
        answer
    }
}

// A line by chance. Some don't tokenise, parse or name what is there, by themselves or at all.
fn random_line(drawn: u64) -> &'static str {
    match (drawn >> 33) % 20 {
        0..=2 => "int a;\n",
        3..=5 => "int b, c;",
        6..=8 => "int f(int x);\n",
        9 | 10 => "\n",
        11 | 12 => "/*\n*/ int d;\n",
        13 | 14 => "int e = 1 +\n2;",
        15 | 16 => "{ int *g = 0; return g == 0; }\n",
        17 => "a = 1;\n",
        18 => "int i\n",
        _ => "@",
    }
}

// A main of up to four such lines.
fn random_file(alloc: Global, seed: u64) -> Result<Vec<u8>, AllocError> {
    let mut file = b"int main(){\n".to_vec(alloc)?;
    let mut drawn = after(seed);
    for _ in 0..(drawn >> 33) % 5 {
        drawn = after(drawn);
        file.extend_from_slice(random_line(drawn).as_bytes())?;
    }
    file.extend_from_slice(b"}\n")?;
    Ok(file)
}

// So many judges of a file.
fn judges_of(alloc: Global, file: &[u8], seed: u64, count: u64) -> Result<Vec<Chance>, AllocError>
    ensures { IfOk result (λ judges. length judges.items ≡ count) }
{
    let mut judges = Vec::new(alloc);
    for _ in 0..count {
        judges.push(Chance {
            whole: file.to_vec(alloc)?,
            seed,
            asked: 0,
            faults: 0,
        })?;
    }
    Ok(judges)
}

fn bench_of(alloc: Global, file: &[u8], seed: u64) -> Result<Bench<Chance>, AllocError> {
    let judges = judges_of(alloc, file, seed, 8)?;
    Bench::new(alloc, judges)
}

fn passes_of(seed: u64) -> &'static str {
    match seed % 5 {
        0 | 1 => "--passes=l w.sh t.c",
        2 => "--passes=ltb w.sh t.c",
        _ => "--limit=12 w.sh t.c",
    }
}

// What a file and a judge by chance come to.
fn by_chance(
    rt: &(impl Threads + Sync),
    alloc: Global,
    seed: u64,
    workers: u64,
    window: u64,
) -> Result<Outcome, AllocError> {
    let words = words_of(alloc, workers, window, passes_of(seed))?;
    let file = random_file(alloc, seed)?;
    let mut bench = bench_of(alloc, &file, seed)?;
    outcome(rt, alloc, &words, &file, &mut bench)
}

fn expect_same(
    rt: &(impl Abort + Threads + Sync),
    alloc: Global,
    seed: u64,
    workers: u64,
    window: u64,
    wanted: &Outcome,
) -> Result<(), AllocError> {
    let found = by_chance(rt, alloc, seed, workers, window)?;
    assert!(rt; found == *wanted, "{seed} {workers} {window}");
    Ok(())
}

// The status of the one outcome that all numbers of workers and positions come to.
fn one_status(
    rt: &(impl Abort + Threads + Sync),
    alloc: Global,
    seed: u64,
) -> Result<u8, AllocError> {
    let wanted = by_chance(rt, alloc, seed, 1, 1)?;
    for (workers, window) in [(1, 64), (2, 7), (4, 1), (4, 64), (8, 7)] {
        expect_same(rt, alloc, seed, workers, window, &wanted)?;
    }
    Ok(wanted.0)
}

#[test]
fn sixty_runs_come_to_one_outcome_each(rt: HostRuntime) -> Result<(), AllocError> {
    let mut ends = String::new(rt.alloc());
    for seed in 0..60 {
        let status = one_status(&rt, rt.alloc(), seed)?;
        write!(ends, "{status} ")?;
    }
    // The runs end in all these ways: reduced, not lawful, at the limit, and with a failed test.
    for end in ["0 ", "4 ", "7 ", "8 "] {
        assert!(rt; ends.as_str().contains(end), "no run ends with {end}");
    }
    Ok(())
}
