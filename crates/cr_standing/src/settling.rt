// The walk's position is decided.
ghost use Rattle.std.specs.Prelude.{◌≡◌, ◌<◌, All, length};
ghost use Rattle.std.specs.Arc.{arc_value};
ghost use Rattle.cr_standing_workers.specs.Channels.{AreJoined, AreSeats, IsTrue};
ghost use Rattle.cr_standing_workers.specs.Told.{IsAbout, searching_by};
ghost use Rattle.cr_standing.specs.Links.{FrontSays, LinkSays};
ghost use Rattle.cr_standing.specs.Walk.{IsSound};

use crate::chain::{Chain, Front, drop_behind, known_at, take_reply};
use crate::ordering::feed;
use crate::walk::Walk;
use cr_cursor::{Law, Passes};
use cr_outside::Question;
use cr_reduce::Plan;
use cr_standing_workers::{Hint, Lines, Reply, Seat, Subject, Task, Trial, next_reply};
use std::alloc::Global;
use std::sync::Wait;

/// An order ended, by a test or without one.
fn end_order<T: Drop>(chain: &mut Chain<T>, asked: bool)
    ensures { chain.new.links ≡ chain.old.links }
{
    chain.out = chain.out.saturating_sub(1);
    if !asked {
        chain.policy.refund();
    }
}

/// Takes a reply. Where it isn't what was guessed, the orders behind it are dropped.
fn note<S: Subject<T>, T: Drop>(hint: &Hint, chain: &mut Chain<T>, reply: &Reply<T>)
    requires is_true { IsTrue S.replies reply.now }
    requires say { All (LinkSays S.orders S.replies) chain.old.links.items }
    ensures say { All (LinkSays S.orders S.replies) chain.new.links.items }
{
    if reply.trial == Trial::Asked {
        let _ = take_reply::<S, T>(chain.links.as_mut_slice(), reply);
        return;
    }
    end_order(chain, reply.asked);
    let Some(i) = take_reply::<S, T>(chain.links.as_mut_slice(), reply) else {
        return;
    };
    if chain.links[i].guess != (reply.trial == Trial::Yes) {
        drop_behind::<S, T>(hint, chain, i + 1);
    }
}

/// Waits for a reply. Answers whether one came.
pub fn hear<R: Wait, S: Subject<T>, T: Drop>(
    rt: &R,
    lines: &Lines<'_, S, T>,
    seat: &mut Seat<T>,
    chain: &mut Chain<T>,
) -> bool
    requires joined { AreJoined lines.now }
    requires seats { AreSeats lines.now seat.old }
    requires say { All (LinkSays S.orders S.replies) chain.old.links.items }
    ensures seats { AreSeats lines.now seat.new }
    ensures say { All (LinkSays S.orders S.replies) chain.new.links.items }
{
    let Some(reply) = next_reply(rt, lines, seat, true) else {
        return false;
    };
    note::<S, T>(lines.hint, chain, &reply);
    true
}

/// What is known of the walk's position.
fn front_of<S: Subject<T>, T: Drop>(chain: &Chain<T>, walk: &Walk<T>) -> Front
    requires say { All (LinkSays S.orders S.replies) chain.now.links.items }
    requires same { (arc_value walk.now.shared).bytes.items ≡ walk.now.file.items }
    ensures { FrontSays S.replies walk.now.file.items walk.now.position result }
{
    if walk.position >= walk.count {
        return Front::Other;
    }
    known_at::<S, T>(chain.links.as_slice(), &walk.shared, walk.position)
}

/// Drops all orders, where the first isn't one of the walk's position.
fn drop_others<S: Subject<T>, T: Drop>(hint: &Hint, chain: &mut Chain<T>, known: Front)
    requires say { All (LinkSays S.orders S.replies) chain.old.links.items }
    ensures say { All (LinkSays S.orders S.replies) chain.new.links.items }
{
    if known == Front::Other {
        drop_behind::<S, T>(hint, chain, 0);
    }
}

/// Gives orders and waits for replies until the walk's position is decided, or can't be.
pub fn settle<R: Wait, S: Subject<P::Prep>, P: Passes, L: Law, Q: Question>(
    rt: &R,
    alloc: Global,
    task: &Task<'_, P, L, Q>,
    lines: &Lines<'_, S, P::Prep>,
    seat: &mut Seat<P::Prep>,
    plan: &Plan,
    chain: &mut Chain<P::Prep>,
    walk: &Walk<P::Prep>,
) -> Front
    requires about { IsAbout (searching_by P.Passes L.Law Q.Question task.now S.told) (P.offer task.now.passes.now) S.orders S.replies S.verdicts }
    requires joined { AreJoined lines.now }
    requires seats { AreSeats lines.now seat.old }
    requires sound { IsSound (P.offers task.now.passes.now) (P.offer task.now.passes.now) walk.now }
    requires say { All (LinkSays S.orders S.replies) chain.old.links.items }
    ensures seats { AreSeats lines.now seat.new }
    ensures say { All (LinkSays S.orders S.replies) chain.new.links.items }
    ensures front { FrontSays S.replies walk.now.file.items walk.now.position result }
{
    for _ in rt.forever() {
        let known = front_of::<S, P::Prep>(chain, walk);
        if known != Front::Open && known != Front::Other {
            return known;
        }
        drop_others::<S, P::Prep>(lines.hint, chain, known);
        feed(rt, alloc, task, lines, seat, plan, chain, walk);
        if chain.out == 0 || !hear(rt, lines, seat, chain) {
            return Front::Unsure;
        }
    }
    unreachable!()
}

/// Waits for all orders that are out, which needn't be tried any more.
pub fn drain<R: Wait, S: Subject<T>, T: Drop>(
    rt: &R,
    lines: &Lines<'_, S, T>,
    seat: &mut Seat<T>,
    chain: &mut Chain<T>,
)
    requires joined { AreJoined lines.now }
    requires seats { AreSeats lines.now seat.old }
    requires say { All (LinkSays S.orders S.replies) chain.old.links.items }
    ensures seats { AreSeats lines.now seat.new }
{
    lines.hint.drop_tickets(0, chain.next);
    for _ in rt.forever() {
        if chain.out == 0 || !hear(rt, lines, seat, chain) {
            return;
        }
    }
}
