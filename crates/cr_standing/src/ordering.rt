// Which order is given next. Any would do: what is guessed costs or saves time, and says nothing.
ghost use Rattle.std.specs.Prelude.{◌≡◌, ◌<◌, ◌≤◌, ◌+◌, All, ℕ, List, IfSome, length};
ghost use Rattle.std.specs.Arc.{arc_value};
ghost use Rattle.cr_standing_workers.specs.Channels.{AreOpen, AreSeats};
ghost use Rattle.cr_standing_workers.specs.Told.{IsAbout, searching_by};
ghost use Rattle.cr_standing.specs.Links.{LinkSays, SpotSays};
ghost use Rattle.cr_standing.specs.Walk.{IsShared, IsSound};

use crate::chain::{Chain, Link, Spot, extend};
use crate::walk::Walk;
use cr_cursor::{Law, Passes, cursor_at, position_of, positions};
use cr_outside::Question;
use cr_pool::read_and_measure;
use cr_reduce::Plan;
use cr_standing_workers::{
    Lines, Order, Place, Seat, Shared, Subject, Task, Trial, make_variant, send_order,
};
use std::alloc::Global;
use std::sync::{Arc, Wait};

/// How likely, in thousandths, what is guessed of the tests that run has to be, for one more order.
const LEAST: u64 = 350;

/// How many orders there may be for each thread.
const DEPTH: u64 = 4;

/// Where the walk stands.
fn spot_of<S: Subject<P::Prep>, P: Passes, L: Law, Q: Question>(
    task: &Task<'_, P, L, Q>,
    walk: &Walk<P::Prep>,
) -> Option<Spot<P::Prep>>
    requires about { IsAbout (searching_by P.Passes L.Law Q.Question task.now S.told) (P.offer task.now.passes.now) S.orders S.replies S.verdicts }
    requires sound { IsSound (P.offers task.now.passes.now) (P.offer task.now.passes.now) walk.now }
    ensures { IfSome result (SpotSays S.orders) }
{
    let Ok(file) = Arc::try_clone(&walk.shared) else {
        return None;
    };
    Some(Spot {
        file,
        count: walk.count,
        position: walk.position,
        changed: walk.changed,
        turns: walk.turns,
    })
}

/// A guessed file, for all threads.
fn share_guess<P: Passes>(
    alloc: Global,
    passes: &P,
    bytes: Vec<u8>,
) -> Option<Arc<Shared<P::Prep>, Global>>
    ensures { IfSome result (λ shared. IsShared (P.offers passes.now) (P.offer passes.now) (arc_value shared).bytes.items (arc_value shared)) }
{
    let Ok(found) = read_and_measure(alloc, &bytes) else {
        return None;
    };
    let Some(measured) = found else {
        return None;
    };
    let size = measured.size;
    let Ok(prep) = passes.prepare(alloc, &bytes) else {
        return None;
    };
    let Ok(shared) = Arc::new(alloc, Shared { bytes, size, prep }) else {
        return None;
    };
    Some(shared)
}

/// Where a position of a file, which has so many, is accepted: in the variant there.
fn accepted<S: Subject<P::Prep>, P: Passes, L: Law, Q: Question>(
    alloc: Global,
    task: &Task<'_, P, L, Q>,
    old: &Shared<P::Prep>,
    count: u64,
    at: u64,
    turns: u64,
) -> Option<Spot<P::Prep>>
    requires about { IsAbout (searching_by P.Passes L.Law Q.Question task.now S.told) (P.offer task.now.passes.now) S.orders S.replies S.verdicts }
    requires all_open { AreOpen S.orders old.now count }
    ensures { IfSome result (SpotSays S.orders) }
{
    if at >= count {
        return None;
    }
    let cursor = cursor_at(task.passes, &old.prep, at);
    let mut variant = Vec::new(alloc);
    if make_variant(task.passes, old, at, &mut variant).is_err() {
        return None;
    }
    let file = share_guess(alloc, task.passes, variant)?;
    let count = positions(task.passes, &file.prep);
    let position = position_of(task.passes, &file.prep, cursor);
    Some(Spot {
        file,
        count,
        position,
        changed: true,
        turns,
    })
}

/// Where an order's position is rejected: at the next one.
fn rejected<S: Subject<T>, T: Drop>(link: &Link<T>, turns: u64) -> Option<Spot<T>>
    requires says { SpotSays S.orders link.now.spot }
    ensures { IfSome result (SpotSays S.orders) }
{
    let Ok(file) = Arc::try_clone(&link.spot.file) else {
        return None;
    };
    Some(Spot {
        file,
        count: link.spot.count,
        position: link.at.saturating_add(1),
        changed: link.spot.changed,
        turns,
    })
}

/// At the end of a round that has changed something: at the next one's beginning.
fn around<S: Subject<T>, T: Drop>(spot: Spot<T>) -> Option<Spot<T>>
    requires says { SpotSays S.orders spot }
    ensures { IfSome result (SpotSays S.orders) }
{
    if spot.position < spot.count {
        return Some(spot);
    }
    if !spot.changed || spot.count == 0 {
        return None;
    }
    let Spot {
        file,
        count,
        position: _,
        changed: _,
        turns,
    } = spot;
    Some(Spot {
        file,
        count,
        position: 0,
        changed: false,
        turns,
    })
}

/// Where an order's position is accepted, or rejected.
fn ended<S: Subject<P::Prep>, P: Passes, L: Law, Q: Question>(
    alloc: Global,
    task: &Task<'_, P, L, Q>,
    link: &Link<P::Prep>,
    yes: bool,
) -> Option<Spot<P::Prep>>
    requires about { IsAbout (searching_by P.Passes L.Law Q.Question task.now S.told) (P.offer task.now.passes.now) S.orders S.replies S.verdicts }
    requires says { SpotSays S.orders link.now.spot }
    ensures { IfSome result (SpotSays S.orders) }
{
    let passed = link.at.saturating_sub(link.spot.position);
    let turns = link.spot.turns.saturating_add(passed).saturating_add(1);
    if yes {
        accepted::<S, P, L, Q>(
            alloc,
            task,
            &link.spot.file,
            link.spot.count,
            link.at,
            turns,
        )
    } else {
        rejected::<S, P::Prep>(link, turns)
    }
}

/// Where the walk goes on behind an order, if it ends so.
fn behind<S: Subject<P::Prep>, P: Passes, L: Law, Q: Question>(
    alloc: Global,
    task: &Task<'_, P, L, Q>,
    link: &Link<P::Prep>,
    yes: bool,
) -> Option<Spot<P::Prep>>
    requires about { IsAbout (searching_by P.Passes L.Law Q.Question task.now S.told) (P.offer task.now.passes.now) S.orders S.replies S.verdicts }
    requires says { SpotSays S.orders link.now.spot }
    ensures { IfSome result (SpotSays S.orders) }
{
    around::<S, P::Prep>(ended::<S, P, L, Q>(alloc, task, link, yes)?)
}

/// Whether the last order is guessed to end by a yes, where a guess is worth an order.
fn guess<T: Drop>(chain: &Chain<T>) -> Option<bool> {
    if chain.links.len() as u64 >= chain.policy.threads().saturating_mul(DEPTH)
        || !chain.policy.may_begin()
    {
        return None;
    }
    let chance = chain.policy.chance();
    let surer = chance.max(1000u64.saturating_sub(chance));
    let mut likely = 1000u64;
    let mut last = None;
    for link in &chain.links {
        match link.said {
            None | Some(Trial::Skipped) => return None,
            Some(Trial::No) => last = Some(false),
            Some(Trial::Yes) => last = Some(true),
            Some(Trial::Asked) => {
                likely = likely.saturating_mul(surer) / 1000;
                last = Some(chance >= 500);
            }
        }
    }
    if likely < LEAST {
        return None;
    }
    last
}

/// What the last order is taken to end by, and where the walk goes on then. Where the likelier end leads nowhere, the other one is taken.
fn guessed<S: Subject<P::Prep>, P: Passes, L: Law, Q: Question>(
    alloc: Global,
    task: &Task<'_, P, L, Q>,
    link: &Link<P::Prep>,
    yes: bool,
) -> Option<(bool, Spot<P::Prep>)>
    requires about { IsAbout (searching_by P.Passes L.Law Q.Question task.now S.told) (P.offer task.now.passes.now) S.orders S.replies S.verdicts }
    requires says { SpotSays S.orders link.now.spot }
    ensures { IfSome result (λ it. SpotSays S.orders it.1) }
{
    if let Some(spot) = behind::<S, P, L, Q>(alloc, task, link, yes) {
        return Some((yes, spot));
    }
    if link.said != Some(Trial::Asked) {
        return None;
    }
    let spot = behind::<S, P, L, Q>(alloc, task, link, !yes)?;
    Some((!yes, spot))
}

/// Where the next order begins, if one is worth it.
fn next_spot<S: Subject<P::Prep>, P: Passes, L: Law, Q: Question>(
    alloc: Global,
    task: &Task<'_, P, L, Q>,
    chain: &mut Chain<P::Prep>,
    walk: &Walk<P::Prep>,
) -> Option<Spot<P::Prep>>
    requires about { IsAbout (searching_by P.Passes L.Law Q.Question task.now S.told) (P.offer task.now.passes.now) S.orders S.replies S.verdicts }
    requires sound { IsSound (P.offers task.now.passes.now) (P.offer task.now.passes.now) walk.now }
    requires say { All (LinkSays S.orders S.replies) chain.old.links.items }
    ensures say { All (LinkSays S.orders S.replies) chain.new.links.items }
    ensures spot { IfSome result (SpotSays S.orders) }
{
    if chain.links.len() == 0 {
        return spot_of::<S, P, L, Q>(task, walk);
    }
    let last = chain.links.len() - 1;
    let yes = guess(chain)?;
    let (yes, spot) = guessed::<S, P, L, Q>(alloc, task, &chain.links[last], yes)?;
    chain.links[last].guess = yes;
    Some(spot)
}

/// How many positions are ordered at once: as many as the window allows, as are left in the round, and as the limit leaves.
fn run_from<T: Drop>(plan: &Plan, spot: &Spot<T>) -> u64
    ensures { 0 < result → spot.now.position + result ≤ spot.now.count }
{
    let most = spot
        .count
        .saturating_sub(spot.position)
        .min(u64::from(plan.window));
    match plan.limit {
        Some(limit) => most.min(limit.saturating_sub(spot.turns)),
        None => most,
    }
}

/// Gives the order that begins here. Answers whether it was given.
fn give<R: Wait, S: Subject<T>, T: Drop>(
    rt: &R,
    lines: &Lines<'_, S, T>,
    seat: &mut Seat<T>,
    plan: &Plan,
    chain: &mut Chain<T>,
    spot: Spot<T>,
) -> bool
    requires seats { AreSeats lines.now seat.old }
    requires spot { SpotSays S.orders spot }
    requires say { All (LinkSays S.orders S.replies) chain.old.links.items }
    ensures seats { AreSeats lines.now seat.new }
    ensures say { All (LinkSays S.orders S.replies) chain.new.links.items }
{
    let len = run_from(plan, &spot);
    if len == 0 {
        return false;
    }
    let Ok(file) = Arc::try_clone(&spot.file) else {
        return false;
    };
    if !chain.policy.begin() {
        return false;
    }
    let ticket = chain.next;
    let place = Place {
        ticket,
        from: spot.position,
        to: spot.position + len,
        file,
    };
    if !extend::<S, T>(&mut chain.links, ticket, spot) {
        chain.policy.refund();
        return false;
    }
    chain.next = ticket.saturating_add(1);
    chain.out = chain.out.saturating_add(1);
    send_order(rt, lines, seat, Order::Try(place))
}

/// Gives further orders, as long as a thread is free and one is worth it.
pub fn feed<R: Wait, S: Subject<P::Prep>, P: Passes, L: Law, Q: Question>(
    rt: &R,
    alloc: Global,
    task: &Task<'_, P, L, Q>,
    lines: &Lines<'_, S, P::Prep>,
    seat: &mut Seat<P::Prep>,
    plan: &Plan,
    chain: &mut Chain<P::Prep>,
    walk: &Walk<P::Prep>,
)
    requires about { IsAbout (searching_by P.Passes L.Law Q.Question task.now S.told) (P.offer task.now.passes.now) S.orders S.replies S.verdicts }
    requires seats { AreSeats lines.now seat.old }
    requires sound { IsSound (P.offers task.now.passes.now) (P.offer task.now.passes.now) walk.now }
    requires say { All (LinkSays S.orders S.replies) chain.old.links.items }
    ensures seats { AreSeats lines.now seat.new }
    ensures say { All (LinkSays S.orders S.replies) chain.new.links.items }
{
    for _ in rt.forever() {
        if chain.out >= chain.policy.threads() {
            return;
        }
        let Some(spot) = next_spot::<S, P, L, Q>(alloc, task, chain, walk) else {
            return;
        };
        if !give(rt, lines, seat, plan, chain, spot) {
            return;
        }
    }
}
