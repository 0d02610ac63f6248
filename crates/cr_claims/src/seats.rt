ghost use Rattle.std.specs.Prelude.{ℕ, ◌≡◌, ◌≢◌, ◌↔◌, ◌+◌, ◌*◌, ◌/◌, ◌<◌, ◌≤◌, ◌⊎◌, [], ◌∷◌, true, false, IsTrue, IfOk};
ghost use Prim.Native.Nat.{min};
ghost use Rattle.cr_core.specs.Row.{placed, under, word, last_position, last_mark, with_last, IsLast};
ghost use Rattle.cr_core.specs.State.{IsFirst};
ghost use Rattle.cr_core.specs.Machine.{MayClaim, MayHit, MayLeave, claimed, settled};
ghost use Rattle.cr_claims.specs.View.{first_view, new_view, with_own, looked, struck, gone, one_split_more, with_joined, joins};
ghost use Rattle.cr_claims.specs.Plays.{RisesAbove};

use crate::plays::{
    Claim, Done, DoneNo, DoneNothing, DoneSkipped, Leave, Look, OneMore, Strike, TakeIn, TwoWords,
};
use crate::view::View;
use atomic_table::{Seat, Table};
use cr_core::{
    First, HitKind, Mark, NoMemory, Settle, a_new_entry_is_last, few_are_tried, hit_of,
    marks_move_nothing, the_least_hit_is_first, word_of,
};
use std::alloc::Global;

/// The two words of an epoch, for its workers to share.
#[derive(Drop)]
pub struct Claims {
    table: Table<u8, View, u64, TwoWords, Global>,
    len: u64,
    ghost about: { (table.shared.key ≡ len) × (len ≤ 4096) },
    ghost two_words: { (table.shared.table_id.words ≡ 2) × (table.shared.table_id.slots ≡ 0) },
}

/// The seat of one worker.
#[derive(Drop)]
pub struct Pass {
    seat: Seat<u8, View>,
    // The last position that it claimed.
    last: u64,
    ghost in_force: { (seat.me.1 ≡ []) × (seat.me.0.spent ≡ false) },
    ghost last_is: { last ≡ last_position seat.me.0.own },
}

impl Claims {
    ghost use Rattle.cr_claims.specs.Pass.{view_of, len_of, IsOf, steady, held, IsDone};

    /// The words of an epoch of `len` positions, and its first pass, the keeper's.
    pub fn open(alloc: Global, len: u64) -> Result<(Claims, Pass), NoMemory>
        requires { len ≤ 4096 }
        ensures { IfOk result (λ r. IsOf r.0 r.1 × (len_of r.0 ≡ len) × (view_of r.1 ≡ first_view len)) }
    {
        let (table, seat) = Table::of_words(alloc, &[0, 4 * len + 3], &len)?;
        Ok((Claims { table, len }, Pass { seat, last: 0 }))
    }

    /// A pass for one more worker, at most 4,096 times.
    pub fn split(&self, pass: &mut Pass) -> Pass
        requires of { IsOf self.now pass.old }
        requires keeper { (view_of pass.old).keeper ≡ true }
        requires few { (view_of pass.old).splits < 4096 }
        ensures stays { IsOf self.now pass.new × IsOf self.now result }
        ensures view { view_of pass.new ≡ one_split_more (view_of pass.old) }
        ensures new { view_of result ≡ new_view (view_of pass.old) }
    {
        let seat = self.table.shared.split_seat::<OneMore>(&mut pass.seat);
        Pass { seat, last: 0 }
    }

    fn claim_as<D: Done>(&self, pass: &mut Pass) -> u64
        requires of { IsOf self.now pass.old }
        requires in_force { (view_of pass.old).left ≡ false }
        requires may { MayClaim (len_of self.now) (view_of pass.old).read D.done (view_of pass.old).own }
        ensures stays { IsOf self.now pass.new }
        ensures view { view_of pass.new ≡ with_own (claimed result D.done (view_of pass.old).own) (view_of pass.old) }
        ensures last { IsLast (view_of pass.new).own (record { position = result; mark = Mark.Open }) }
        ensures rises { RisesAbove result (view_of pass.old).own }
    {
        a_new_entry_is_last();
        let position = self
            .table
            .shared
            .fetch_add::<Claim<D>>(&mut pass.seat, 0, 1);
        pass.last = position;
        position
    }

    /// Settles the open entry, if there is one, and claims the next position, by one `fetch_add`. A pass may skip its entry only past
    /// the end or above the least hit that it has read.
    pub fn claim(&self, pass: &mut Pass, done: Settle) -> u64
        requires of { IsOf self.now pass.old }
        requires in_force { (view_of pass.old).left ≡ false }
        requires may { MayClaim (len_of self.now) (view_of pass.old).read done (view_of pass.old).own }
        ensures stays { IsOf self.now pass.new }
        ensures view { view_of pass.new ≡ with_own (claimed result done (view_of pass.old).own) (view_of pass.old) }
        ensures last { IsLast (view_of pass.new).own (record { position = result; mark = Mark.Open }) }
        ensures rises { RisesAbove result (view_of pass.old).own }
    {
        match done {
            Settle::Nothing => self.claim_as::<DoneNothing>(pass),
            Settle::No => self.claim_as::<DoneNo>(pass),
            Settle::Skipped => self.claim_as::<DoneSkipped>(pass),
        }
    }

    /// Whether a lower position than the claimed one is a hit by now, by one load of `least`.
    pub fn look(&self, pass: &mut Pass) -> bool
        requires of { IsOf self.now pass.old }
        requires is_open { last_mark (view_of pass.old).own ≡ Mark.Open }
        ensures stays { IsOf self.now pass.new }
        ensures view { view_of pass.new ≡ looked (view_of pass.new).read (view_of pass.old) }
        ensures steady { steady pass.new ≡ steady pass.old }
        ensures falls { (view_of pass.new).read ≤ (view_of pass.old).read }
        ensures lower { IsTrue result ↔ ((view_of pass.new).read / 4 < last_position (view_of pass.old).own) }
    {
        let found = self.table.shared.load::<Look>(&mut pass.seat, 1);
        found / 4 < pass.last
    }

    /// The open entry is a hit, by one `fetch_min` on `least`. The pass has then read the lesser of the word found and its own.
    pub fn hit(&self, pass: &mut Pass, kind: HitKind)
        requires of { IsOf self.now pass.old }
        requires may { MayHit (len_of self.now) (view_of pass.old).own }
        ensures stays { IsOf self.now pass.new }
        ensures view { view_of pass.new ≡ struck (view_of pass.new).read (with_last (Mark.Hit kind) (view_of pass.old).own) (view_of pass.old) }
        ensures falls { (view_of pass.new).read ≤ (view_of pass.old).read }
        ensures own { (view_of pass.new).read ≤ word (last_position (view_of pass.old).own) kind }
    {
        marks_move_nothing();
        let hit = word_of(pass.last, kind);
        self.table
            .shared
            .fetch_min::<Strike>(&mut pass.seat, 1, hit);
    }

    fn leave_as<D: Done>(&self, pass: &mut Pass)
        requires of { IsOf self.now pass.old }
        requires may { MayLeave (len_of self.now) (view_of pass.old).read D.done (view_of pass.old).own }
        ensures stays { IsOf self.now pass.new }
        ensures view { view_of pass.new ≡ gone (settled D.done (view_of pass.old).own) (view_of pass.old) }
    {
        marks_move_nothing();
        self.table.shared.load::<Leave<D>>(&mut pass.seat, 1);
    }

    /// Settles the open entry, if there is one; the pass claims no more. Its last position is past the end, or above the least hit that
    /// it has read.
    pub fn leave(&self, pass: &mut Pass, done: Settle)
        requires of { IsOf self.now pass.old }
        requires may { MayLeave (len_of self.now) (view_of pass.old).read done (view_of pass.old).own }
        ensures stays { IsOf self.now pass.new }
        ensures view { view_of pass.new ≡ gone (settled done (view_of pass.old).own) (view_of pass.old) }
    {
        match done {
            Settle::Nothing => self.leave_as::<DoneNothing>(pass),
            Settle::No => self.leave_as::<DoneNo>(pass),
            Settle::Skipped => self.leave_as::<DoneSkipped>(pass),
        }
    }

    /// The keeper's pass takes the list of another, which has left or never claimed.
    pub fn join(&self, pass: &mut Pass, other: Pass)
        requires of { IsOf self.now pass.old × IsOf self.now other }
        requires keeper { (view_of pass.old).keeper ≡ true }
        requires rests { ((view_of other).own ≡ []) ⊎ ((view_of other).left ≡ true) }
        ensures stays { IsOf self.now pass.new }
        ensures view { view_of pass.new ≡ with_joined (view_of pass.old) (view_of other) }
    {
        let Pass { seat, last: _ } = other;
        self.table.shared.join_seat::<TakeIn>(&mut pass.seat, seat);
    }

    /// The first position that wasn't rejected, once all passes are joined into the keeper's, and one of them has left. No position was
    /// claimed twice.
    pub fn close(self, pass: Pass) -> First
        requires of { IsOf self pass }
        requires keeper { (view_of pass).keeper ≡ true }
        requires all_joined { joins (view_of pass) ≡ (view_of pass).splits }
        requires done { IsDone (view_of pass) }
        ensures first { IsFirst (len_of self) (held (view_of pass)) result }
        ensures once { (p : ℕ) → held (view_of pass) (placed p) ≤ 1 }
        ensures few { held (view_of pass) (under (len_of self)) ≤ len_of self }
    {
        few_are_tried();
        the_least_hit_is_first();
        let Claims { table, len } = self;
        let Pass { seat, last: _ } = pass;
        let closed = table.close_with(seat);
        let least = closed.word(1);
        closed.free();
        hit_of(len, least)
    }
}
