// What is kept of the workers' notes once an epoch is over.
ghost use Rattle.std.specs.Prelude.{◌≡◌, ◌≤◌, ◌<◌, ◌+◌, ℕ, None, OnErr, OnOk, slice_index_or};
ghost use Rattle.cr_pool.specs.Endings.{IsNote, TakesNote, TakesNotes, decided_at};
ghost use Rattle.cr_pool.specs.Jobs.{IsPlaced, offer_of};
ghost use Rattle.cr_core.specs.declared.events.First.{First};
ghost use Rattle.cr_core.specs.declared.marks.HitKind.{HitKind};

use crate::crew::Worker;
use crate::job::Job;
use crate::trial::make;
use crate::verdict::Verdict;
use crate::verdicts::Verdicts;
use cr_core::{First, HitKind};
use cr_cursor::{Law, Passes};
use cr_outside::{NoMemory, Question};
use std::alloc::Global;

fn note_at<J>(worker: &Worker<J>, at: u64) -> Option<Verdict>
    ensures { result ≡ slice_index_or worker.now.notes.items at None }
{
    match worker.notes.get(at as usize) {
        Some(note) => *note,
        None => None,
    }
}

/// The verdict that a worker noted of a position, if one did.
fn noted<J>(workers: &[Worker<J>], at: u64) -> Option<Verdict>
    ensures { IsNote workers.now at result }
{
    for (i, worker) in workers.iter().enumerate() {
        let note = note_at(worker, at);
        if note.is_some() {
            return note;
        }
    }
    None
}

/// Keeps what was noted of one position, with its variant's bytes, which are made once more.
fn remember_one<P: Passes, L: Law, Q: Question, J>(
    alloc: Global,
    job: &Job<P, L, Q>,
    at: u64,
    workers: &[Worker<J>],
    variant: &mut Vec<u8>,
    verdicts: &mut Verdicts,
) -> Result<(), NoMemory>
    requires within { at < job.now.len }
    requires placed { IsPlaced P.Passes job.now }
    ensures kept { OnOk result ((gone : ℕ) → TakesNote (offer_of P.Passes job.now) job.now.start at workers.now verdicts.old gone verdicts.new gone) }
    ensures lost { OnErr result ((gone : ℕ) → TakesNote (offer_of P.Passes job.now) job.now.start at workers.now verdicts.old gone verdicts.new (gone + 1)) }
{
    let Some(verdict) = noted(workers, at) else {
        return Ok(());
    };
    make(job, at, variant)?;
    verdicts.put(alloc, variant, verdict)
}

/// Keeps what was noted of the first positions, in their order, and counts what found no memory.
pub fn remember<P: Passes, L: Law, Q: Question, J>(
    alloc: Global,
    job: &Job<P, L, Q>,
    positions: u64,
    workers: &[Worker<J>],
    verdicts: &mut Verdicts,
) -> u64
    requires within { positions ≤ job.now.len }
    requires placed { IsPlaced P.Passes job.now }
    ensures { TakesNotes (offer_of P.Passes job.now) job.now.start positions workers.now verdicts.old verdicts.new result }
{
    let mut variant = Vec::new(alloc);
    let mut lost = 0;
    for at in 0..positions {
        if remember_one(alloc, job, at, workers, &mut variant, verdicts).is_err() {
            lost += 1;
        }
    }
    lost
}

/// How many of an epoch's first positions decided its end: those up to the first hit, without it where its trial failed.
pub fn decided(len: u64, first: First) -> u64
    requires { (at : ℕ) (kind : HitKind) → first ≡ First.At at kind → at < len }
    ensures is { result ≡ decided_at len first }
    ensures few { result ≤ len }
{
    match first {
        First::None => len,
        First::At(at, HitKind::Yes) => at + 1,
        First::At(at, HitKind::Failed) => at,
        First::At(at, HitKind::Starved) => at,
    }
}
