// The judges of a run.
ghost use Rattle.std.specs.Prelude.{◌≡◌, ◌≢◌, ◌<◌, ◌≤◌, IfOk, [], drop, length, map, true, false};
ghost use Rattle.cr_outside.specs.Faults.{Rose};
ghost use Rattle.cr_outside.specs.Question.{AnswersAsTold, AsksOnce, CountsOnce};
ghost use Rattle.cr_pool.specs.Bench.{IsManned, epoch_on, first_tally};
ghost use Rattle.cr_pool.specs.Crew.{judges_in};
ghost use Rattle.cr_pool.specs.Epoch.{EndsBy, KeepsWhatWasMade, Remembers};
ghost use Rattle.cr_pool.specs.Jobs.{IsJudged, IsPlaced};
ghost use Rattle.cr_pool.specs.Kept.{AreRight};
ghost use Rattle.cr_pool.specs.Sizes.{HasSize};
ghost use Rattle.cr_pool.specs.Tally.{first_says, tallies_of};

use crate::crew::Worker;
use crate::epoch::try_by_some;
use crate::job::{EpochEnd, Job};
use crate::verdict::Verdict;
use crate::verdicts::Verdicts;
use cr_cursor::{Law, Passes};
use cr_outside::{Answer, Judge, NoMemory, Question};
use std::alloc::Global;
use std::marker::Model;
use std::mem;
use std::thread::Threads;

/// At least one judge, at most 32, all of one key. Clauses see the list of the judges, the verdicts that are kept, and how many the
/// last epoch lost.
#[derive(Drop)]
pub struct Bench<J: Judge> {
    workers: Vec<Worker<J>>,
    verdicts: Verdicts,
    lost: u64,
}

impl<J: Judge> Model for Bench<J> {
    ghost use Rattle.cr_pool.specs.Bench.{Benched, IsManned};
    ghost use Rattle.cr_pool.specs.Crew.{judges_in};

    ghost Value = { Benched J };

    ghost view = { λ b. record { judges = judges_in b.workers.items; kept = b.verdicts; lost = b.lost } };

    ghost invariant = { λ b. IsManned J.key (judges_in b.workers.items) };
}

impl<J: Judge + Drop> Bench<J> {
    /// A bench of these judges.
    pub fn new(alloc: Global, judges: Vec<J>) -> Result<Bench<J>, NoMemory>
        requires { IsManned J.key judges.items }
        ensures judges { IfOk result (λ bench. bench.judges ≡ judges.items) }
        ensures kept { IfOk result (λ bench. bench.kept ≡ []) }
        ensures lost { IfOk result (λ bench. bench.lost ≡ 0) }
    {
        let workers = crew_of(alloc, judges)?;
        let verdicts = Verdicts::new(alloc)?;
        Ok(Bench {
            workers,
            verdicts,
            lost: 0,
        })
    }
}

impl<J: Judge + Drop> Bench<J> {
    /// Lends the workers for some work, which hands them back in their order, each with a judge of its judge's key. The kept verdicts
    /// are forgotten.
    pub fn lend<R, F: FnOnce(Vec<Worker<J>>) -> (Vec<Worker<J>>, R)>(
        &mut self,
        alloc: Global,
        work: F,
    ) -> R
        requires ready { (workers : _) → judges_in workers.items ≡ self.old.judges → IsManned J.key self.old.judges → F.pre work workers }
        requires back { (workers : _) (r : _) → judges_in workers.items ≡ self.old.judges → F.post work workers r → map J.key (judges_in r.0.items) ≡ map J.key self.old.judges }
        ensures work { (workers : _) × (r : _) × (judges_in workers.items ≡ self.old.judges) × F.post work workers r × (judges_in r.0.items ≡ self.new.judges) × (result ≡ r.1) }
        ensures kept { self.new.kept ≡ [] }
        ensures lost { self.new.lost ≡ self.old.lost }
    {
        let workers = mem::replace(&mut self.workers, Vec::new(alloc));
        let (workers, result) = work(workers);
        self.workers = workers;
        self.verdicts.forget();
        result
    }
}

// How many variants a worker noted a No about in the last epoch that it did.
fn refusals<J>(worker: &Worker<J>) -> u64 {
    let noes = worker
        .notes
        .iter()
        .filter(|note| **note == Some(Verdict::No));
    noes.count() as u64
}

// The workers of these judges.
fn crew_of<J: Drop>(alloc: Global, judges: Vec<J>) -> Result<Vec<Worker<J>>, NoMemory>
    ensures { IfOk result (λ workers. judges_in workers.items ≡ judges.items) }
{
    let mut workers = Vec::with_capacity(alloc, judges.len())?;
    for judge in judges {
        workers.push(Worker {
            judge,
            pass: None,
            hit: None,
            variant: Vec::new(alloc),
            notes: Vec::new(alloc),
        })?;
    }
    Ok(workers)
}

impl<J: Judge> Bench<J> {
    /// How many judges, and so how many workers, there are.
    pub fn workers(&self) -> u32
        ensures count { result ≡ length self.now.judges }
        ensures some { 0 < result }
        ensures few { result ≤ 32 }
    {
        self.workers.len() as u32
    }

    /// How many verdicts the last epoch found no memory to keep.
    pub fn lost(&self) -> u64
        ensures { result ≡ self.now.lost }
    {
        self.lost
    }

    /// How many variants the first of so many workers, in the last epoch that they did, came to a No about. It is no more than a hint
    /// of how often the next ones may be refused: no clause rests on it.
    pub fn refused(&self, workers: u32) -> u64 {
        let mut count: u64 = 0;
        for worker in self.workers.iter().take(workers as usize) {
            count = count.saturating_add(refusals(worker));
        }
        count
    }

    /// Forgets the kept verdicts.
    pub fn forget(&mut self)
        ensures judges { self.new.judges ≡ self.old.judges }
        ensures kept { self.new.kept ≡ [] }
        ensures lost { self.new.lost ≡ self.old.lost }
    {
        self.verdicts.forget();
    }
}

impl<J: Judge> Bench<J> {
    /// Asks the first worker's judge about a file.
    pub fn ask_first<Q: Question>(
        &mut self,
        alloc: Global,
        question: &Q,
        name: &str,
        file: &[u8],
    ) -> Answer
        ensures told { AnswersAsTold (Q.asks question.now) (Q.tells question.now (first_says J.key J.says self.old.judges) name.now file.now) result }
        ensures once { Q.asks question.now ≡ true → AsksOnce (first_tally J.Judge self.old).calls (first_tally J.Judge self.new).calls name.now file.now result }
        ensures counted { Q.asks question.now ≡ true → CountsOnce (first_tally J.Judge self.old).asked (first_tally J.Judge self.new).asked result }
        ensures silent { Q.asks question.now ≡ false → self.new ≡ self.old }
        ensures unfailing { Q.asks question.now ≡ false → result ≢ Answer.Failed }
        ensures key { first_says J.key J.says self.new.judges ≡ first_says J.key J.says self.old.judges }
        ensures keys { map J.key self.new.judges ≡ map J.key self.old.judges }
        ensures some { 0 < length self.old.judges }
        ensures others { drop 1 self.new.judges ≡ drop 1 self.old.judges }
        ensures kept { self.new.kept ≡ self.old.kept }
        ensures lost { self.new.lost ≡ self.old.lost }
        ensures count { length self.new.judges ≡ length self.old.judges }
        ensures later { (first_tally J.Judge self.old).faults ≤ (first_tally J.Judge self.new).faults }
        ensures failed { result ≡ Answer.Failed → Rose (first_tally J.Judge self.old).faults (first_tally J.Judge self.new).faults }
    {
        let worker = &mut self.workers[0];
        question.ask(alloc, &mut worker.judge, name, file)
    }
}

impl<J: Judge + Send> Bench<J> {
    /// Tries the positions of a job by its workers, each in a thread of its own where one can be made and is worth it, and ends as one
    /// worker that tries them in order would. It wants memory where the words of the claims, the workers' buffers or the first trial that isn't
    /// rejected find none.
    ///
    /// A position whose variant has a kept verdict is neither ruled on nor asked about. What the trials of the positions up to the
    /// first that isn't rejected came to is put in their order, Failed and want of memory never, and what finds no memory is counted.
    pub fn epoch<R: Threads + Sync, P: Passes + Sync, L: Law + Sync, Q: Question + Sync>(
        &mut self,
        rt: &R,
        alloc: Global,
        job: &Job<P, L, Q>,
    ) -> EpochEnd
    where
        P::Prep: Sync,
        requires placed { IsPlaced P.Passes job.now }
        requires sized { HasSize job.now.file.now job.now.size }
        requires short { job.now.len ≤ 4096 }
        requires workers { (0 < job.now.workers) × (job.now.workers ≤ length self.old.judges) }
        requires kept { AreRight (L.lawful job.now.law.now) (Q.asks job.now.question.now) (Q.tells job.now.question.now (first_says J.key J.says self.old.judges) job.now.name.now) self.old.kept }
        ensures end { EndsBy (epoch_on P.Passes L.Law Q.Question J.Judge job.now self.old) (tallies_of J.Judge self.old.judges) (tallies_of J.Judge self.new.judges) result }
        ensures judges { IsJudged J.Judge (epoch_on P.Passes L.Law Q.Question J.Judge job.now self.old) self.old.judges self.new.judges }
        ensures others { drop job.now.workers self.new.judges ≡ drop job.now.workers self.old.judges }
        ensures kept { AreRight (L.lawful job.now.law.now) (Q.asks job.now.question.now) (Q.tells job.now.question.now (first_says J.key J.says self.old.judges) job.now.name.now) self.new.kept }
        ensures made { KeepsWhatWasMade (epoch_on P.Passes L.Law Q.Question J.Judge job.now self.old) (tallies_of J.Judge self.old.judges) (tallies_of J.Judge self.new.judges) self.new.kept }
        ensures remembers { Remembers (epoch_on P.Passes L.Law Q.Question J.Judge job.now self.old) (tallies_of J.Judge self.old.judges) (tallies_of J.Judge self.new.judges)
            result self.new.kept self.new.lost }
    {
        try_by_some(
            rt,
            alloc,
            job,
            &mut self.workers,
            &mut self.verdicts,
            &mut self.lost,
        )
    }
}
