// One epoch on the bench's workers.
ghost use Rattle.std.specs.Prelude.{◌≡◌, ◌<◌, ◌≤◌, drop, length};
ghost use Rattle.cr_pool.specs.Crew.{judges_in};
ghost use Rattle.cr_pool.specs.Epoch.{BeginsRight, EndsBy, Remembers};
ghost use Rattle.cr_pool.specs.Jobs.{IsJudged, IsPlaced, epoch_of};
ghost use Rattle.cr_pool.specs.Sizes.{HasSize};
ghost use Rattle.cr_pool.specs.Tally.{HaveOneKey, first_says, tallies_of};

use crate::crew::{Worker, clear, gather, run, seat};
use crate::ending::end_of;
use crate::job::{EpochEnd, Job};
use crate::remembered::{decided, remember};
use crate::verdicts::Verdicts;
use cr_claims::Claims;
use cr_cursor::{Law, Passes};
use cr_outside::{Judge, Question};
use std::alloc::Global;
use std::thread::Threads;

/// From so many bytes on the trials of a file are worth a thread each, whatever is asked.
const LARGE: usize = 65_536;

// In how many threads so many workers try the variants of a file of so many bytes: in one where no judge is waited for and a trial is
// done sooner than what it would be tried ahead for.
fn threads_for(workers: usize, bytes: usize, asks: bool) -> usize
    requires { 0 < workers }
    ensures { 0 < result }
{
    if asks || bytes >= LARGE { workers } else { 1 }
}

/// Tries the positions of a job by all of these workers. What is kept of it afterwards is put, and what found no memory counted.
pub fn try_all<
    R: Threads + Sync,
    P: Passes + Sync,
    L: Law + Sync,
    Q: Question + Sync,
    J: Judge + Send,
>(
    rt: &R,
    alloc: Global,
    job: &Job<P, L, Q>,
    workers: &mut [Worker<J>],
    verdicts: &mut Verdicts,
    lost: &mut u64,
) -> EpochEnd
where
    P::Prep: Sync,
    requires placed { IsPlaced P.Passes job.now }
    requires sized { HasSize job.now.file.now job.now.size }
    requires some { 0 < length workers.old }
    requires few { length workers.old ≤ 32 }
    requires short { job.now.len ≤ 4096 }
    requires one_key { HaveOneKey J.key (judges_in workers.old) }
    requires right { BeginsRight (epoch_of P.Passes L.Law Q.Question job.now (first_says J.key J.says (judges_in workers.old)) verdicts.old) }
    ensures end { EndsBy (epoch_of P.Passes L.Law Q.Question job.now (first_says J.key J.says (judges_in workers.old)) verdicts.old) (tallies_of J.Judge (judges_in workers.old)) (tallies_of J.Judge (judges_in workers.new)) result }
    ensures judges { IsJudged J.Judge (epoch_of P.Passes L.Law Q.Question job.now (first_says J.key J.says (judges_in workers.old)) verdicts.old) (judges_in workers.old) (judges_in workers.new) }
    ensures remembers { Remembers (epoch_of P.Passes L.Law Q.Question job.now (first_says J.key J.says (judges_in workers.old)) verdicts.old) (tallies_of J.Judge (judges_in workers.old)) (tallies_of J.Judge (judges_in workers.new))
        result verdicts.new lost.new }
{
    *lost = 0;
    if clear(workers, job.len as usize, job.file.len()).is_err() {
        return EpochEnd::NoMemory;
    }
    let (claims, mut keeper) = match Claims::open(alloc, job.len) {
        Ok(opened) => opened,
        Err(_) => return EpochEnd::NoMemory,
    };
    seat(&claims, &mut keeper, workers);
    let threads = threads_for(workers.len(), job.file.len(), job.question.uses_judge());
    run(rt, alloc, &claims, job, verdicts, workers, threads);
    gather(&claims, &mut keeper, workers);
    let first = claims.close(keeper);
    *lost = remember(alloc, job, decided(job.len, first), workers, verdicts);
    end_of(alloc, job.start, job.len, first, workers)
}

/// Tries the positions of a job by as many of these workers as it names.
pub fn try_by_some<
    R: Threads + Sync,
    P: Passes + Sync,
    L: Law + Sync,
    Q: Question + Sync,
    J: Judge + Send,
>(
    rt: &R,
    alloc: Global,
    job: &Job<P, L, Q>,
    workers: &mut [Worker<J>],
    verdicts: &mut Verdicts,
    lost: &mut u64,
) -> EpochEnd
where
    P::Prep: Sync,
    requires placed { IsPlaced P.Passes job.now }
    requires sized { HasSize job.now.file.now job.now.size }
    requires workers { (0 < job.now.workers) × (job.now.workers ≤ length workers.old) }
    requires few { length workers.old ≤ 32 }
    requires short { job.now.len ≤ 4096 }
    requires one_key { HaveOneKey J.key (judges_in workers.old) }
    requires right { BeginsRight (epoch_of P.Passes L.Law Q.Question job.now (first_says J.key J.says (judges_in workers.old)) verdicts.old) }
    ensures end { EndsBy (epoch_of P.Passes L.Law Q.Question job.now (first_says J.key J.says (judges_in workers.old)) verdicts.old) (tallies_of J.Judge (judges_in workers.old)) (tallies_of J.Judge (judges_in workers.new)) result }
    ensures judges { IsJudged J.Judge (epoch_of P.Passes L.Law Q.Question job.now (first_says J.key J.says (judges_in workers.old)) verdicts.old) (judges_in workers.old) (judges_in workers.new) }
    ensures remembers { Remembers (epoch_of P.Passes L.Law Q.Question job.now (first_says J.key J.says (judges_in workers.old)) verdicts.old) (tallies_of J.Judge (judges_in workers.old)) (tallies_of J.Judge (judges_in workers.new))
        result verdicts.new lost.new }
    ensures others { drop job.now.workers (judges_in workers.new) ≡ drop job.now.workers (judges_in workers.old) }
{
    let (crew, _) = workers.split_at_mut(job.workers as usize);
    try_all(rt, alloc, job, crew, verdicts, lost)
}
