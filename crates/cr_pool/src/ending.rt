// How an epoch ends, by its first hit.
ghost use Rattle.std.specs.Prelude.{◌≡◌, ◌<◌, ◌≤◌, ◌+◌, ◌^◌, ℕ, length};
ghost use Rattle.cr_core.specs.declared.marks.HitKind.{HitKind};
ghost use Rattle.cr_core.specs.declared.events.First.{First};
ghost use Rattle.cr_pool.specs.Crew.{HaveSameJudges};
ghost use Rattle.cr_pool.specs.Endings.{IsHitter, IsEnd, IsEndAt};

use crate::crew::Worker;
use crate::job::EpochEnd;
use cr_core::{First, HitKind};
use std::alloc::Global;
use std::mem;

/// The worker whose hit this is.
fn hitter<J>(workers: &[Worker<J>], at: u64, kind: HitKind) -> usize
    requires { (worker : ℕ) × IsHitter workers.now at kind worker }
    ensures { IsHitter workers.now at kind result }
{
    for (i, worker) in workers.iter().enumerate() {
        if worker.hit == Some((at, kind)) {
            return i;
        }
    }
    unreachable!()
}

fn end_at<J>(
    alloc: Global,
    start: u64,
    at: u64,
    kind: HitKind,
    workers: &mut [Worker<J>],
) -> EpochEnd
    requires hit { (worker : ℕ) × IsHitter workers.old at kind worker }
    requires few { length workers.old ≤ 32 }
    requires fits { start + at < 2 ^ 64 }
    ensures end { IsEndAt start workers.old at kind result }
    ensures judges { HaveSameJudges workers.old workers.new }
{
    let worker = hitter(workers, at, kind);
    match kind {
        HitKind::Yes => {
            let bytes = mem::replace(&mut workers[worker].variant, Vec::new(alloc));
            EpochEnd::Found(start + at, bytes)
        }
        HitKind::Failed => EpochEnd::Fault(start + at, worker as u32),
        HitKind::Starved => EpochEnd::NoMemory,
    }
}

/// The end of an epoch of `len` positions from `start` on.
pub fn end_of<J>(
    alloc: Global,
    start: u64,
    len: u64,
    first: First,
    workers: &mut [Worker<J>],
) -> EpochEnd
    requires hit { (at : ℕ) (kind : HitKind) → first ≡ First.At at kind → (start + at < 2 ^ 64) × ((worker : ℕ) × IsHitter workers.old at kind worker) }
    requires few { length workers.old ≤ 32 }
    ensures end { IsEnd start len workers.old first result }
    ensures judges { HaveSameJudges workers.old workers.new }
{
    match first {
        First::None => EpochEnd::NoneOf(len),
        First::At(at, kind) => end_at(alloc, start, at, kind, workers),
    }
}
