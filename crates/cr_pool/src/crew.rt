// The workers of an epoch: each gets a pass, they run, and their passes are joined again.
ghost use Rattle.std.specs.Prelude.{◌≡◌, ◌≢◌, ◌<◌, ◌≤◌, ◌+◌, ℕ, true, [], All, IsSomeAnd, OnOk, length, slice_index_or};
ghost use Rattle.cr_claims.specs.Pass.{view_of, len_of, IsOf, held};
ghost use Rattle.cr_claims.specs.View.{first_view, one_split_more};
ghost use Rattle.cr_core.specs.Row.{Row};
ghost use Rattle.cr_core.specs.Sound.{total};
ghost use Rattle.cr_pool.specs.Jobs.{IsPlaced};
ghost use Rattle.cr_pool.specs.Sizes.{HasSize};
ghost use Rattle.cr_pool.specs.Crew.{HaveSameJudges, HaveSameNotes, IsFresh, IsReady, IsSameButPass, IsWorked, Keeps, Rests, TakesIn, row_of, rows_of};
ghost use Rattle.cr_pool.specs.Works.{IsBlank};

use crate::job::Job;
use crate::verdict::Verdict;
use crate::verdicts::Verdicts;
use crate::worker::drive;
use cr_claims::{Claims, Pass};
use cr_core::HitKind;
use cr_cursor::{Law, Passes};
use cr_outside::{Judge, NoMemory, Question};
use std::alloc::Global;
use std::thread;
use std::thread::Threads;

/// A judge, with what an epoch's work needs beside it.
#[derive(Drop)]
pub struct Worker<J> {
    pub judge: J,
    /// There while an epoch runs.
    pub(crate) pass: Option<Pass>,
    /// The position that was a hit in the last epoch, if one was.
    pub(crate) hit: Option<(u64, HitKind)>,
    /// The variant that was made last.
    pub(crate) variant: Vec<u8>,
    /// The verdicts that it came to in the last epoch, each at its position.
    pub(crate) notes: Vec<Option<Verdict>>,
}

fn clear_one<J>(worker: &mut Worker<J>, len: usize, room: usize) -> Result<(), NoMemory>
    ensures judge { worker.new.judge ≡ worker.old.judge }
    ensures blank { OnOk result (IsBlank len worker.new.notes.items) }
{
    worker.variant.clear();
    worker.variant.reserve(room)?;
    worker.notes.clear();
    worker.notes.resize(len, None)?;
    Ok(())
}

/// Makes each worker's buffer and notes ready for an epoch of this many positions, with variants of `room` bytes at most.
pub fn clear<J>(workers: &mut [Worker<J>], len: usize, room: usize) -> Result<(), NoMemory>
    ensures judges { HaveSameJudges workers.old workers.new }
    ensures blank { OnOk result (All (λ w. IsBlank len w.notes.items) workers.new) }
{
    for worker in workers.iter_mut() {
        clear_one(worker, len, room)?;
    }
    Ok(())
}

fn seat_one<J>(claims: &Claims, keeper: &mut Pass, worker: &mut Worker<J>)
    requires of { IsOf claims.now keeper.old }
    requires keeper { (view_of keeper.old).keeper ≡ true }
    requires few { (view_of keeper.old).splits < 4096 }
    ensures stays { IsOf claims.now keeper.new }
    ensures view { view_of keeper.new ≡ one_split_more (view_of keeper.old) }
    ensures fresh { IsSomeAnd worker.new.pass (IsFresh claims.now) }
    ensures judge { worker.new.judge ≡ worker.old.judge }
    ensures notes { worker.new.notes ≡ worker.old.notes }
{
    worker.pass = Some(claims.split(keeper));
    worker.hit = None;
}

/// Gives each worker a pass of its own.
pub fn seat<J>(claims: &Claims, keeper: &mut Pass, workers: &mut [Worker<J>])
    requires of { IsOf claims.now keeper.old }
    requires first { view_of keeper.old ≡ first_view (len_of claims.now) }
    requires few { length workers.old ≤ 32 }
    ensures stays { IsOf claims.now keeper.new }
    ensures keeps { Keeps (length workers.old) 0 keeper.new }
    ensures nothing { (f : Row → ℕ) → held (view_of keeper.new) f ≡ f [] }
    ensures fresh { All (λ w. IsSomeAnd w.pass (IsFresh claims.now)) workers.new }
    ensures judges { HaveSameJudges workers.old workers.new }
    ensures notes { HaveSameNotes workers.old workers.new }
{
    for worker in workers.iter_mut() {
        seat_one(claims, keeper, worker);
    }
}

fn take_in<J>(claims: &Claims, keeper: &mut Pass, worker: &mut Worker<J>)
    requires of { IsOf claims.now keeper.old }
    requires keeper { (view_of keeper.old).keeper ≡ true }
    requires rests { IsSomeAnd worker.old.pass (Rests claims.now) }
    ensures stays { IsOf claims.now keeper.new }
    ensures view { TakesIn (row_of worker.old.pass) (view_of keeper.old) (view_of keeper.new) }
    ensures some { row_of worker.old.pass ≢ [] }
    ensures same { IsSameButPass worker.old worker.new }
{
    if let Some(pass) = worker.pass.take() {
        claims.join(keeper, pass);
    }
}

/// Joins all passes into the keeper's.
pub fn gather<J>(claims: &Claims, keeper: &mut Pass, workers: &mut [Worker<J>])
    requires of { IsOf claims.now keeper.old }
    requires keeps { Keeps (length workers.old) 0 keeper.old }
    requires some { 0 < length workers.old }
    requires rests { All (λ w. IsSomeAnd w.pass (Rests claims.now)) workers.old }
    ensures stays { IsOf claims.now keeper.new }
    ensures keeps { Keeps (length workers.old) (length workers.old) keeper.new }
    ensures counts { (f : Row → ℕ) → held (view_of keeper.new) f ≡ held (view_of keeper.old) f + total f (rows_of workers.old) }
    ensures one { slice_index_or (view_of keeper.new).joined 0 [] ≢ [] }
    ensures same { (k : ℕ) (d : Worker J) → k < length workers.old → IsSameButPass (slice_index_or workers.old k d) (slice_index_or workers.new k d) }
{
    for worker in workers.iter_mut() {
        take_in(claims, keeper, worker);
    }
}

/// Does a worker's part of an epoch.
fn work<P: Passes, L: Law, Q: Question, J: Judge>(
    alloc: Global,
    claims: &Claims,
    job: &Job<P, L, Q>,
    verdicts: &Verdicts,
    worker: &mut Worker<J>,
)
    requires placed { IsPlaced P.Passes job.now }
    requires sized { HasSize job.now.file.now job.now.size }
    requires len { job.now.len ≡ len_of claims.now }
    requires ready { IsReady P.Passes L.Law Q.Question J.Judge job.now claims.now verdicts.now worker.old }
    ensures { IsWorked P.Passes L.Law Q.Question J.Judge job.now claims.now verdicts.now worker.old worker.new }
{
    if let Some(pass) = &mut worker.pass {
        worker.hit = drive(
            alloc,
            claims,
            job,
            verdicts,
            pass,
            &mut worker.judge,
            &mut worker.variant,
            &mut worker.notes,
        );
    }
}

/// Lets all workers do their part, in at most so many threads. In one, the first worker does all that there is to do.
pub fn run<R: Threads + Sync, P: Passes + Sync, L: Law + Sync, Q: Question + Sync, J: Judge + Send>(
    rt: &R,
    alloc: Global,
    claims: &Claims,
    job: &Job<P, L, Q>,
    verdicts: &Verdicts,
    workers: &mut [Worker<J>],
    threads: usize,
)
where
    P::Prep: Sync,
    requires placed { IsPlaced P.Passes job.now }
    requires sized { HasSize job.now.file.now job.now.size }
    requires len { job.now.len ≡ len_of claims.now }
    requires threads { 0 < threads }
    requires ready { All (λ w. IsReady P.Passes L.Law Q.Question J.Judge job.now claims.now verdicts.now w) workers.old }
    ensures { (k : ℕ) (d : Worker J) → k < length workers.old → IsWorked P.Passes L.Law Q.Question J.Judge job.now claims.now verdicts.now (slice_index_or workers.old k d) (slice_index_or workers.new k d) }
{
    thread::for_each_mut(
        rt,
        workers,
        threads,
        &|_, worker| { work(alloc, claims, job, verdicts, worker) },
    );
}
