// The rule of the table, and what each step tells its pass.
ghost use Rattle.std.specs.Prelude.{◌≡◌, ◌≤◌, ◌<◌, ◌⊎◌, [], ◌∷◌};
ghost use Prim.Native.Nat.{min};
ghost use Rattle.cr_claims.specs.View.{first_view, new_view, spent_view, with_own, looked, struck, gone, one_split_more, with_joined};
ghost use Rattle.cr_claims.specs.Rule.{IsKept};
ghost use Rattle.cr_core.specs.declared.events.Settle.{Settle};
ghost use Rattle.cr_core.specs.declared.events.Settle.TheVariants as settle;
ghost use Rattle.cr_core.specs.Row.{last_position};
ghost use Rattle.cr_core.specs.Machine.{claimed, settled};
ghost use Rattle.cr_claims.specs.Plays.{RisesAbove, hit_list};

use crate::view::View;
use atomic_table::{Join, Play, Split, TableRule};
use std::marker::PhantomData;

// Word 0 is `next`, word 1 is `least`. The table's key is the length.
pub struct TwoWords;

impl TableRule<u8, View, u64> for TwoWords {
    ghost holds = { λ len s. IsKept len s.words s.views };

    ghost first = { first_view };
}

// How an open entry is settled, as a type: a `Play` sees no argument of the call.
pub trait Done {
    ghost done: { Settle };
}

pub struct DoneNothing;

impl Done for DoneNothing {
    ghost done = { settle.Nothing };
}

pub struct DoneNo;

impl Done for DoneNo {
    ghost done = { settle.No };
}

pub struct DoneSkipped;

impl Done for DoneSkipped {
    ghost done = { settle.Skipped };
}

pub struct Claim<D: Done>(PhantomData<D>);

impl<D: Done> Play<u8, View> for Claim<D> {
    ghost then = { λ _ before n after. (after.0 ≡ with_own (claimed n D.done before.0.own) before.0) × (after.1 ≡ before.1) × RisesAbove n before.0.own };
}

pub struct Look;

impl Play<u8, View> for Look {
    ghost then = { λ _ before n after. (after.0 ≡ looked n before.0) × (after.1 ≡ before.1) × (n ≤ before.0.read) };
}

pub struct Strike;

impl Play<u8, View> for Strike {
    ghost then = { λ s before n after. (after.0 ≡ struck (min n s.first) (hit_list s.first before.0.own) before.0) × (after.1 ≡ before.1) × (n ≤ before.0.read) };
}

pub struct Leave<D: Done>(PhantomData<D>);

impl<D: Done> Play<u8, View> for Leave<D> {
    ghost then = { λ _ before _ after. (after.0 ≡ gone (settled D.done before.0.own) before.0) × (after.1 ≡ before.1) };
}

pub struct OneMore;

impl Split<View> for OneMore {
    ghost left = { one_split_more };

    ghost right = { new_view };
}

pub struct TakeIn;

impl Join<View> for TakeIn {
    ghost both = { with_joined };

    ghost spent = { spent_view };
}
