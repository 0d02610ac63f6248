// As many workers work as are asked for.
ghost use Rattle.std.specs.Prelude.{◌≡◌, ◌<◌, ◌≤◌, [], IfOk, None, length};

use crate::epochs::{rejected_all, size_of};
use crate::meeting::reaches;
use crate::remembered::lines;
use cr_cursor::{NoMemory, Passes, TokenLaw, positions};
use cr_outside::{Answer, Judge, Test};
use cr_pool::{Bench, Job};
use pass_list::CPasses;
use std::alloc::Global;
use std::process::Abort;
use std::sync::atomic::{AtomicU64, Ordering};
use std::thread::Threads;

// Says no. Its first call ends only once so many judges have been asked.
#[derive(Drop)]
struct Gathering<'a> {
    present: &'a AtomicU64,
    wanted: u64,
    asked: u64,
}

impl<'a> Gathering<'a> {
    fn gather(&self) {
        self.present.fetch_add(1, Ordering::SeqCst);
        let _all = reaches(self.present, self.wanted);
    }
}

impl<'a> Judge for Gathering<'a> {
    type Key = ();

    ghost key = { λ _. tt };

    ghost says = { λ _ _ _ _. None };

    ghost asked = { λ j. j.asked };

    ghost calls = { λ _. None };

    ghost faults = { λ _. 0 };

    fn ask(&mut self, _alloc: Global, _test: &str, _name: &str, _file: &[u8]) -> Answer {
        if self.asked == 0 {
            self.gather();
        }
        self.asked = self.asked.saturating_add(1);
        Answer::No
    }
}

fn judges_of(alloc: Global, present: &AtomicU64, count: u64) -> Result<Vec<Gathering<'_>>, NoMemory>
    requires { count ≤ 32 }
    ensures { IfOk result (λ judges. length judges.items ≡ count) }
{
    let mut judges = Vec::new(alloc);
    for _ in 0..count {
        judges.push(Gathering {
            present,
            wanted: count,
            asked: 0,
        })?;
    }
    Ok(judges)
}

fn bench_of(
    alloc: Global,
    present: &AtomicU64,
    count: u64,
) -> Result<Bench<Gathering<'_>>, NoMemory>
    requires { (0 < count) × (count ≤ 32) }
    ensures { IfOk result (λ bench. bench.kept ≡ []) }
{
    let judges = judges_of(alloc, present, count)?;
    Bench::new(alloc, judges)
}

// Whether an epoch of the last variants, which are so many, rejects them all.
fn rejects_all<R: Threads + Abort + Sync, J: Judge + Send>(
    rt: &R,
    alloc: Global,
    file: &[u8],
    variants: u64,
    bench: &mut Bench<J>,
) -> Result<bool, NoMemory>
    requires kept { bench.old.kept ≡ [] }
    requires few { variants ≤ 4096 }
{
    assert!(rt; file.len() <= 1_048_576, "the text is too long");
    let size = size_of(rt, alloc, file)?;
    let question = Test::Program(String::from_str(alloc, "t")?);
    let passes = CPasses::lines();
    let prep = passes.prepare(alloc, file)?;
    let count = positions(&passes, &prep);
    assert!(rt; variants <= count, "fewer positions than are looked at");
    let job = Job {
        passes: &passes,
        prep: &prep,
        law: &TokenLaw,
        question: &question,
        name: "t.c",
        file,
        size,
        start: count - variants,
        len: variants,
        workers: bench.workers(),
    };
    let end = bench.epoch(rt, alloc, &job);
    Ok(rejected_all(&end, variants))
}

// How many of so many judges were asked in an epoch of 40 variants.
fn asked_of(
    rt: &(impl Threads + Abort + Sync),
    alloc: Global,
    file: &[u8],
    count: u64,
) -> Result<u64, NoMemory>
    requires { (0 < count) × (count ≤ 32) }
{
    let present = AtomicU64::new(0);
    let mut bench = bench_of(alloc, &present, count)?;
    let all = rejects_all(rt, alloc, file, 40, &mut bench)?;
    assert!(rt; all, "not every judge was asked");
    Ok(present.load(Ordering::SeqCst))
}

fn expect_each(
    rt: &(impl Threads + Abort + Sync),
    alloc: Global,
    file: &[u8],
) -> Result<(), NoMemory> {
    for count in [1, 2, 4, 32] {
        let asked = asked_of(rt, alloc, file, count)?;
        assert!(rt; asked == count, "{count}: {asked}");
    }
    Ok(())
}

#[test]
fn each_worker_that_is_asked_for_works_in_each_of_100_epochs(
    rt: HostRuntime,
) -> Result<(), NoMemory> {
    let file = lines(rt.alloc(), 1040, 16)?;
    for _ in 0..25 {
        expect_each(&rt, rt.alloc(), &file)?;
    }
    Ok(())
}
