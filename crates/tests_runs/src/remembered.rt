// What a reduction doesn't ask or make again. The counts were found by hand: of the variants of three lines the first thirteen are the
// empty file, and so are those of the later files but one or two.
ghost use Rattle.std.specs.Prelude.{◌≡◌, ◌<◌, ◌≤◌, [], IfOk, None, length};
ghost use Rattle.pass_list.specs.OfferLaws.{few_variants, no_level, no_pass, one_offer};
ghost use Rattle.pass_list.specs.Offers.{Offers, offer_of};

use crate::reductions::{end_of, told};
use cr_cursor::{Cursor, NoMemory, Passes};
use cr_outside::{Answer, Judge, Test};
use cr_pool::Bench;
use cr_reduce::Plan;
use pass_list::{CPasses, Index};
use std::alloc::{AllocError, Global};
use std::process::Abort;
use std::sync::atomic::{AtomicU64, Ordering};
use std::thread::Threads;

const THREE: &[u8] = b"int a;\nint b;\nint c;\n";

const TWO: &[u8] = b"int a;\nint b;\n";

const ONE: &[u8] = b"int b;\n";

/// The acceptances, the turns, each of which tries a smaller, lawful variant, and why it ends.
const WANTED: &str = "0 13 1 68 15, 0 14 0 34 16, 32 fixed";

/// Says yes to two files and no to all others, and counts its calls.
#[derive(Drop)]
struct Counted<'a> {
    calls: &'a AtomicU64,
    asked: u64,
}

impl<'a> Judge for Counted<'a> {
    type Key = ();

    ghost key = { λ _. tt };

    ghost says = { λ _ _ _ _. None };

    ghost asked = { λ j. j.asked };

    ghost calls = { λ _. None };

    ghost faults = { λ _. 0 };

    fn ask(&mut self, _alloc: Global, _test: &str, _name: &str, file: &[u8]) -> Answer {
        self.asked = self.asked.saturating_add(1);
        self.calls.fetch_add(1, Ordering::SeqCst);
        if file == TWO || file == ONE {
            Answer::Yes
        } else {
            Answer::No
        }
    }
}

/// Hands each call on to pass l, and counts the files that an index was made of.
#[derive(Drop)]
struct Counting<'a> {
    lines: CPasses<'a>,
    prepared: &'a AtomicU64,
}

impl<'a> Passes for Counting<'a> {
    type Prep = Index;

    ghost offers = { λ p file o. Offers p.lines.enabled file o };

    ghost offer = { λ _ index file. offer_of index file };

    ghost one = { λ p file o other is also. one_offer p.lines.enabled file o other is also };

    ghost few = { λ p file o pass level is. few_variants p.lines.enabled file o pass level is };

    ghost no_more_passes = { λ p file o pass level is above. no_pass p.lines.enabled file o pass level is above };

    ghost sixteen_levels = { λ p file o pass level is above. no_level p.lines.enabled file o pass level is above };

    fn prepare(&self, alloc: Global, file: &[u8]) -> Result<Index, NoMemory> {
        self.prepared.fetch_add(1, Ordering::SeqCst);
        self.lines.prepare(alloc, file)
    }

    fn width(&self, prep: &Index, pass: u8, level: u8) -> u64 {
        self.lines.width(prep, pass, level)
    }

    fn variant(
        &self,
        prep: &Index,
        file: &[u8],
        at: Cursor,
        out: &mut Vec<u8>,
    ) -> Result<(), NoMemory> {
        self.lines.variant(prep, file, at, out)
    }
}

// A bench of one judge.
fn bench_of(alloc: Global, calls: &AtomicU64) -> Result<Bench<Counted<'_>>, AllocError>
    ensures some { IfOk result (λ bench. 0 < length bench.judges) }
    ensures kept { IfOk result (λ bench. bench.kept ≡ []) }
{
    let mut judges = Vec::new(alloc);
    judges.push(Counted { calls, asked: 0 })?;
    Bench::new(alloc, judges)
}

// How the reduction of the three lines ends.
fn end_told(
    rt: &(impl Threads + Sync),
    alloc: Global,
    passes: &Counting<'_>,
    calls: &AtomicU64,
    window: u32,
    test: &str,
) -> Result<String, AllocError>
    requires { (0 < window) × (window ≤ 4096) }
{
    let Ok(test) = Test::read(alloc, test) else {
        return Ok(String::new(alloc));
    };
    let file = THREE.to_vec(alloc)?;
    let mut bench = bench_of(alloc, calls)?;
    let plan = Plan {
        workers: 1,
        window,
        limit: None,
    };
    match end_of(rt, alloc, passes, &test, &mut bench, file, &plan) {
        Some(end) => told(alloc, &end),
        None => Ok(String::new(alloc)),
    }
}

// How many calls of the judge and of `prepare` the reduction makes, which ends as is wanted.
fn counts(
    rt: &(impl Abort + Threads + Sync),
    alloc: Global,
    window: u32,
    test: &str,
) -> Result<(u64, u64), AllocError>
    requires { (0 < window) × (window ≤ 4096) }
{
    let calls = AtomicU64::new(0);
    let prepared = AtomicU64::new(0);
    let passes = Counting {
        lines: CPasses::lines(),
        prepared: &prepared,
    };
    let end = end_told(rt, alloc, &passes, &calls, window, test)?;
    assert!(rt; end.as_str() == WANTED, "{end}");
    let calls = calls.load(Ordering::SeqCst);
    Ok((calls, prepared.load(Ordering::SeqCst)))
}

#[test]
fn a_file_that_was_asked_about_is_not_asked_about_again(rt: HostRuntime) -> Result<(), AllocError> {
    let (calls, _) = counts(&rt, rt.alloc(), 256, "t")?;
    assert!(rt; calls == 16, "window 256: {calls}");
    let (calls, _) = counts(&rt, rt.alloc(), 1, "t")?;
    assert!(rt; calls == 4, "window 1: {calls}");
    Ok(())
}

#[test]
fn each_file_gets_one_index(rt: HostRuntime) -> Result<(), AllocError> {
    let (calls, indexes) = counts(&rt, rt.alloc(), 1, "has:b")?;
    assert!(rt; calls == 0 && indexes == 3, "other calls, or other indexes");
    Ok(())
}
