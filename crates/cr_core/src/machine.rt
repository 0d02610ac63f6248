ghost use Rattle.std.specs.Prelude.{◌≡◌, ◌≤◌, ◌<◌, ◌-◌, ◌^◌, ◌⊎◌, IfOk, OnErr, replicate, []};
ghost use Rattle.cr_core.specs.State.{start, in_lists, IsSoundState, IsFinished, IsFirst, IsLeastHit, first_of};
ghost use Rattle.cr_core.specs.Machine.{Does, Runs};
ghost use Rattle.cr_core.specs.Row.{word};
ghost use Rattle.cr_core.specs.Core.{state_of};

use crate::events::{Event, First, Settle};
use crate::marks::{Entry, HitKind, Mark};
use crate::settling::{add, mark_last, may_claim, may_leave, open_position, settle};
use cr_rows::Row;
use std::alloc::{AllocError, Global};

/// Want of memory.
pub type NoMemory = AllocError;

/// The state of the core. Its fields may hold any values; those that `new` and `step` make are sound.
#[derive(Debug, Drop)]
pub struct Core {
    /// How many positions the epoch has.
    pub len: u64,
    /// The next position to be claimed.
    pub next: u64,
    /// `4 * position + kind` of the least hit, `4 * len + 3` before any.
    pub least: u64,
    /// Each worker's entries, the last claim last.
    pub lists: Vec<Row<Entry>>,
}

impl Core {
    /// The core of an epoch of `len` positions before any event.
    pub fn new(alloc: Global, len: u64, workers: u32) -> Result<Core, NoMemory>
        requires { len ≤ 4096 }
        ensures start { IfOk result (λ core. state_of core ≡ start len workers) }
        ensures sound { IfOk result (λ core. IsSoundState (state_of core)) }
    {
        let mut lists = Vec::with_capacity(alloc, workers as usize)?;
        for _ in 0..workers {
            lists.push(Row::new(alloc))?;
        }
        Ok(Core {
            len,
            next: 0,
            least: 4 * len + 3,
            lists,
        })
    }

    /// Does an event where it is allowed. It answers false where it isn't allowed; then the core is as it was, as after want of memory.
    /// The number `next` must have room for a claim, as it has in every sound state.
    pub fn step(&mut self, event: Event) -> Result<bool, NoMemory>
        requires small { self.old.len ≤ 4096 }
        requires room { (self.old.next < 2 ^ 64 - 1) ⊎ IsSoundState (state_of self.old) }
        ensures ok { IfOk result (Does event (state_of self.old) (state_of self.new)) }
        ensures err { OnErr result (state_of self.new ≡ state_of self.old) }
        ensures sound { IsSoundState (state_of self.old) → IsSoundState (state_of self.new) }
        ensures length { self.new.len ≡ self.old.len }
    {
        match event {
            Event::Claim(worker, done) => self.claim(worker, done),
            Event::Look(worker) => Ok(self.may_look(worker)),
            Event::Hit(worker, kind) => Ok(self.hit(worker, kind)),
            Event::Leave(worker, done) => Ok(self.leave(worker, done)),
        }
    }

    fn claim(&mut self, worker: u32, done: Settle) -> Result<bool, NoMemory>
        requires small { self.old.len ≤ 4096 }
        requires room { (self.old.next < 2 ^ 64 - 1) ⊎ IsSoundState (state_of self.old) }
        ensures ok { IfOk result (Does (Event.Claim worker done) (state_of self.old) (state_of self.new)) }
        ensures err { OnErr result (state_of self.new ≡ state_of self.old) }
    {
        let (len, least, next) = (self.len, self.least, self.next);
        let at = worker as usize;
        if at >= self.lists.len() {
            return Ok(false);
        }
        let row = &mut self.lists[at];
        if !may_claim(len, least, done, row) {
            return Ok(false);
        }
        add(row, done, next)?;
        self.next += 1;
        Ok(true)
    }

    fn may_look(&self, worker: u32) -> bool
        ensures { Does (Event.Look worker) (state_of self.now) (state_of self.now) result }
    {
        let at = worker as usize;
        at < self.lists.len() && open_position(&self.lists[at]).is_some()
    }

    fn hit(&mut self, worker: u32, kind: HitKind) -> bool
        requires { self.old.len ≤ 4096 }
        ensures { Does (Event.Hit worker kind) (state_of self.old) (state_of self.new) result }
    {
        let at = worker as usize;
        if at >= self.lists.len() {
            return false;
        }
        let len = self.len;
        let row = &mut self.lists[at];
        match open_position(row) {
            Some(position) if position < len => {
                mark_last(row, Mark::Hit(kind));
                self.least = self.least.min(word_of(position, kind));
                true
            }
            _ => false,
        }
    }

    fn leave(&mut self, worker: u32, done: Settle) -> bool
        ensures { Does (Event.Leave worker done) (state_of self.old) (state_of self.new) result }
    {
        let at = worker as usize;
        if at >= self.lists.len() {
            return false;
        }
        let (len, least) = (self.len, self.least);
        let row = &mut self.lists[at];
        if !may_leave(len, least, done, row) {
            return false;
        }
        settle(row, done);
        true
    }

    /// The least hit, which in a finished state is the first position that wasn't rejected.
    pub fn first(&self) -> First
        requires { IsSoundState (state_of self.now) }
        ensures of_least { result ≡ first_of self.now.len self.now.least }
        ensures least_hit { IsLeastHit (in_lists (state_of self.now)) result }
        ensures finished { IsFinished (state_of self.now) → IsFirst self.now.len (in_lists (state_of self.now)) result }
    {
        hit_of(self.len, self.least)
    }
}

/// The hit that the least word of an epoch names.
pub fn hit_of(len: u64, least: u64) -> First
    ensures { result ≡ first_of len least }
{
    if least / 4 >= len {
        return First::None;
    }
    let kind = match least % 4 {
        0 => HitKind::Yes,
        1 => HitKind::Failed,
        _ => HitKind::Starved,
    };
    First::At(least / 4, kind)
}

/// The word of a hit: `4 * position + kind`, with Yes 0, Failed 1 and Starved 2.
pub fn word_of(position: u64, kind: HitKind) -> u64
    requires { position < 4096 }
    ensures { result ≡ word position kind }
{
    let number = match kind {
        HitKind::Yes => 0,
        HitKind::Failed => 1,
        HitKind::Starved => 2,
    };
    4 * position + number
}

/// The core after the allowed events of a list, in order.
pub fn run(alloc: Global, len: u64, workers: u32, events: &[Event]) -> Result<Core, NoMemory>
    requires { len ≤ 4096 }
    ensures ran { IfOk result (λ core. Runs (start len workers) events.now (state_of core)) }
    ensures sound { IfOk result (λ core. IsSoundState (state_of core)) }
    ensures first { IfOk result (λ core. IsFinished (state_of core) → IsFirst core.len (in_lists (state_of core)) (first_of core.len core.least)) }
{
    let mut core = Core::new(alloc, len, workers)?;
    for event in events {
        core.step(*event)?;
    }
    Ok(core)
}
