// The walk over the positions, as far as the workers decide them.
ghost use Rattle.std.specs.Prelude.{◌≡◌, ◌≢◌, ◌<◌, ◌≤◌, ◌+◌, All, ℕ, Option, Some, None, OnErr, OnOk, length};
ghost use Rattle.std.specs.Arc.{arc_value};
ghost use Rattle.cr_reduce.specs.Reduction.{Within, cursors_of};
ghost use Rattle.cr_standing_workers.specs.Channels.{AllNo, AreJoined, AreSeats};
ghost use Rattle.cr_standing_workers.specs.Told.{IsAbout, searching_by};
ghost use Rattle.cr_standing_workers.specs.declared.orders.Trial.{Trial};
ghost use Rattle.cr_standing.specs.Crew.{LeavesSo, StepSays};
ghost use Rattle.cr_standing.specs.Links.{FrontSays, LinkSays};
ghost use Rattle.cr_standing.specs.Walk.{IsSound, Leads, standing_at};

use crate::chain::{Chain, Front, commit, pass_by};
use crate::policy::Policy;
use crate::settling::{drain, settle};
use crate::walk::{Walk, take};
use cr_cursor::{Law, Passes};
use cr_outside::{NoMemory, Question};
use cr_reduce::{Plan, Why, length_of};
use cr_standing_workers::{Lines, Seat, Subject, Task, make_variant};
use std::alloc::Global;
use std::sync::Wait;

/// What a step of the walk came to.
enum Step {
    /// It goes on.
    On,
    /// The next position wasn't decided.
    Unsure,
    /// The walk has ended.
    Ends(Why),
}

/// Makes the accepted variant of a position the file. Without memory nothing changes.
pub fn take_found<S: Subject<P::Prep>, P: Passes, L: Law, Q: Question>(
    alloc: Global,
    task: &Task<'_, P, L, Q>,
    walk: &mut Walk<P::Prep>,
    position: u64,
) -> Result<(), NoMemory>
    requires about { IsAbout (searching_by P.Passes L.Law Q.Question task.now S.told) (P.offer task.now.passes.now) S.orders S.replies S.verdicts }
    requires sound { IsSound (P.offers task.now.passes.now) (P.offer task.now.passes.now) walk.old }
    requires from { walk.old.position ≤ position }
    requires below { position < walk.old.count }
    requires found { S.replies walk.old.file.items position Trial.Yes }
    requires rejected { AllNo S.replies walk.old.file.items walk.old.position position }
    ensures leads { OnOk result (Leads (searching_by P.Passes L.Law Q.Question task.now S.told) (standing_at (P.offer task.now.passes.now) walk.old) (standing_at (P.offer task.now.passes.now) walk.new)) }
    ensures sound { OnOk result (IsSound (P.offers task.now.passes.now) (P.offer task.now.passes.now) walk.new) }
    ensures turns { OnOk result (walk.new.turns + walk.old.position ≡ walk.old.turns + position + 1) }
    ensures same { OnErr result (standing_at (P.offer task.now.passes.now) walk.new ≡ standing_at (P.offer task.now.passes.now) walk.old) }
{
    let mut variant = Vec::new(alloc);
    make_variant(task.passes, &walk.shared, position, &mut variant)?;
    take(alloc, task.passes, walk, position, variant)
}

fn lesser(a: u64, b: u64) -> u64
    ensures first { result ≤ a }
    ensures second { result ≤ b }
    ensures above { (n : ℕ) → n < a → n < b → n < result }
{
    if a < b { a } else { b }
}

/// Goes over rejected positions, up to the lesser of these two.
fn pass_over<S: Subject<P::Prep>, P: Passes, L: Law, Q: Question>(
    task: &Task<'_, P, L, Q>,
    chain: &mut Chain<P::Prep>,
    walk: &mut Walk<P::Prep>,
    to: u64,
    end: u64,
)
    requires about { IsAbout (searching_by P.Passes L.Law Q.Question task.now S.told) (P.offer task.now.passes.now) S.orders S.replies S.verdicts }
    requires say { All (LinkSays S.orders S.replies) chain.old.links.items }
    requires sound { IsSound (P.offers task.now.passes.now) (P.offer task.now.passes.now) walk.old }
    requires after { walk.old.position < to }
    requires ends { (walk.old.position < end) × (end ≤ walk.old.count) }
    requires rejected { AllNo S.replies walk.old.file.items walk.old.position to }
    ensures say { All (LinkSays S.orders S.replies) chain.new.links.items }
    ensures sound { IsSound (P.offers task.now.passes.now) (P.offer task.now.passes.now) walk.new }
    ensures leads { Leads (searching_by P.Passes L.Law Q.Question task.now S.told) (standing_at (P.offer task.now.passes.now) walk.old) (standing_at (P.offer task.now.passes.now) walk.new) }
    ensures within { (limit : Option ℕ) (len : ℕ) → end ≡ walk.old.position + len → Within limit (walk.old.turns + len) → Within limit walk.new.turns }
{
    let to = lesser(to, end);
    pass_by::<S, P::Prep>(chain, to);
    walk.turns += to - walk.position;
    walk.position = to;
}

/// Goes on to what is known of the walk's next positions, as far as the window and the limit allow.
fn go_to<S: Subject<P::Prep>, P: Passes, L: Law, Q: Question>(
    alloc: Global,
    task: &Task<'_, P, L, Q>,
    plan: &Plan,
    chain: &mut Chain<P::Prep>,
    walk: &mut Walk<P::Prep>,
    front: Front,
) -> Step
    requires about { IsAbout (searching_by P.Passes L.Law Q.Question task.now S.told) (P.offer task.now.passes.now) S.orders S.replies S.verdicts }
    requires say { All (LinkSays S.orders S.replies) chain.old.links.items }
    requires sound { IsSound (P.offers task.now.passes.now) (P.offer task.now.passes.now) walk.old }
    requires front { FrontSays S.replies walk.old.file.items walk.old.position front }
    requires window { (0 < plan.now.window) × (plan.now.window ≤ 4096) }
    requires within { Within plan.now.limit walk.old.turns }
    requires below { walk.old.position < walk.old.count }
    requires more { plan.now.limit ≢ Some walk.old.turns }
    ensures say { All (LinkSays S.orders S.replies) chain.new.links.items }
    ensures leads { Leads (searching_by P.Passes L.Law Q.Question task.now S.told) (standing_at (P.offer task.now.passes.now) walk.old) (standing_at (P.offer task.now.passes.now) walk.new) }
    ensures placed { walk.new.position ≤ length (cursors_of (P.offer task.now.passes.now (arc_value walk.new.shared).prep walk.new.file.items)) }
    ensures within { Within plan.now.limit walk.new.turns }
    ensures says { StepSays (searching_by P.Passes L.Law Q.Question task.now S.told) (P.offers task.now.passes.now) (P.offer task.now.passes.now) plan.now.limit walk.new result }
{
    let len = length_of(plan, walk.count - walk.position, walk.turns);
    let end = walk.position + len;
    match front {
        Front::Past(to) => {
            pass_over::<S, P, L, Q>(task, chain, walk, to, end);
            Step::On
        }
        Front::Hit(at) if at < end => match take_found::<S, P, L, Q>(alloc, task, walk, at) {
            Ok(()) => {
                commit::<S, P::Prep>(chain, true);
                Step::On
            }
            Err(_) => Step::Ends(Why::NoMemory),
        },
        Front::Hit(at) => {
            pass_over::<S, P, L, Q>(task, chain, walk, at, end);
            Step::On
        }
        Front::Unsure | Front::Open | Front::Other => Step::Unsure,
    }
}

/// Looks at the walk's next positions, and goes on to where something was found out.
fn look<R: Wait, S: Subject<P::Prep>, P: Passes, L: Law, Q: Question>(
    rt: &R,
    alloc: Global,
    task: &Task<'_, P, L, Q>,
    lines: &Lines<'_, S, P::Prep>,
    seat: &mut Seat<P::Prep>,
    plan: &Plan,
    chain: &mut Chain<P::Prep>,
    walk: &mut Walk<P::Prep>,
) -> Step
    requires about { IsAbout (searching_by P.Passes L.Law Q.Question task.now S.told) (P.offer task.now.passes.now) S.orders S.replies S.verdicts }
    requires joined { AreJoined lines.now }
    requires seats { AreSeats lines.now seat.old }
    requires say { All (LinkSays S.orders S.replies) chain.old.links.items }
    requires sound { IsSound (P.offers task.now.passes.now) (P.offer task.now.passes.now) walk.old }
    requires window { (0 < plan.now.window) × (plan.now.window ≤ 4096) }
    requires within { Within plan.now.limit walk.old.turns }
    requires below { walk.old.position < walk.old.count }
    requires more { plan.now.limit ≢ Some walk.old.turns }
    ensures seats { AreSeats lines.now seat.new }
    ensures say { All (LinkSays S.orders S.replies) chain.new.links.items }
    ensures leads { Leads (searching_by P.Passes L.Law Q.Question task.now S.told) (standing_at (P.offer task.now.passes.now) walk.old) (standing_at (P.offer task.now.passes.now) walk.new) }
    ensures placed { walk.new.position ≤ length (cursors_of (P.offer task.now.passes.now (arc_value walk.new.shared).prep walk.new.file.items)) }
    ensures within { Within plan.now.limit walk.new.turns }
    ensures says { StepSays (searching_by P.Passes L.Law Q.Question task.now S.told) (P.offers task.now.passes.now) (P.offer task.now.passes.now) plan.now.limit walk.new result }
{
    let front = settle(rt, alloc, task, lines, seat, plan, chain, walk);
    go_to::<S, P, L, Q>(alloc, task, plan, chain, walk, front)
}

/// Looks at the next positions, or begins a new round, or says why the walk has ended.
fn advance<R: Wait, S: Subject<P::Prep>, P: Passes, L: Law, Q: Question>(
    rt: &R,
    alloc: Global,
    task: &Task<'_, P, L, Q>,
    lines: &Lines<'_, S, P::Prep>,
    seat: &mut Seat<P::Prep>,
    plan: &Plan,
    chain: &mut Chain<P::Prep>,
    walk: &mut Walk<P::Prep>,
) -> Step
    requires about { IsAbout (searching_by P.Passes L.Law Q.Question task.now S.told) (P.offer task.now.passes.now) S.orders S.replies S.verdicts }
    requires joined { AreJoined lines.now }
    requires seats { AreSeats lines.now seat.old }
    requires say { All (LinkSays S.orders S.replies) chain.old.links.items }
    requires sound { IsSound (P.offers task.now.passes.now) (P.offer task.now.passes.now) walk.old }
    requires window { (0 < plan.now.window) × (plan.now.window ≤ 4096) }
    requires within { Within plan.now.limit walk.old.turns }
    ensures seats { AreSeats lines.now seat.new }
    ensures say { All (LinkSays S.orders S.replies) chain.new.links.items }
    ensures leads { Leads (searching_by P.Passes L.Law Q.Question task.now S.told) (standing_at (P.offer task.now.passes.now) walk.old) (standing_at (P.offer task.now.passes.now) walk.new) }
    ensures placed { walk.new.position ≤ length (cursors_of (P.offer task.now.passes.now (arc_value walk.new.shared).prep walk.new.file.items)) }
    ensures within { Within plan.now.limit walk.new.turns }
    ensures says { StepSays (searching_by P.Passes L.Law Q.Question task.now S.told) (P.offers task.now.passes.now) (P.offer task.now.passes.now) plan.now.limit walk.new result }
{
    if walk.position == walk.count {
        if !walk.changed {
            return Step::Ends(Why::Fixed);
        }
        walk.position = 0;
        walk.changed = false;
        return Step::On;
    }
    if plan.limit == Some(walk.turns) {
        return Step::Ends(Why::Limit);
    }
    look(rt, alloc, task, lines, seat, plan, chain, walk)
}

/// Goes on until the walk ends, and says why, or until its next position isn't decided by the workers, of which there are so many. No order
/// is out then.
pub fn walk_on<R: Wait, S: Subject<P::Prep>, P: Passes, L: Law, Q: Question>(
    rt: &R,
    alloc: Global,
    task: &Task<'_, P, L, Q>,
    lines: &Lines<'_, S, P::Prep>,
    seat: &mut Seat<P::Prep>,
    threads: u64,
    plan: &Plan,
    walk: &mut Walk<P::Prep>,
) -> Option<Why>
    requires about { IsAbout (searching_by P.Passes L.Law Q.Question task.now S.told) (P.offer task.now.passes.now) S.orders S.replies S.verdicts }
    requires joined { AreJoined lines.now }
    requires seats { AreSeats lines.now seat.old }
    requires sound { IsSound (P.offers task.now.passes.now) (P.offer task.now.passes.now) walk.old }
    requires window { (0 < plan.now.window) × (plan.now.window ≤ 4096) }
    requires within { Within plan.now.limit walk.old.turns }
    ensures seats { AreSeats lines.now seat.new }
    ensures leads { Leads (searching_by P.Passes L.Law Q.Question task.now S.told) (standing_at (P.offer task.now.passes.now) walk.old) (standing_at (P.offer task.now.passes.now) walk.new) }
    ensures placed { walk.new.position ≤ length (cursors_of (P.offer task.now.passes.now (arc_value walk.new.shared).prep walk.new.file.items)) }
    ensures within { Within plan.now.limit walk.new.turns }
    ensures leaves { LeavesSo (searching_by P.Passes L.Law Q.Question task.now S.told) (P.offers task.now.passes.now) (P.offer task.now.passes.now) plan.now.limit walk.new result }
{
    let mut chain = Chain {
        links: Vec::new(alloc),
        next: 0,
        out: 0,
        policy: Policy::new(threads),
    };
    let why = go_on(rt, alloc, task, lines, seat, plan, &mut chain, walk);
    drain(rt, lines, seat, &mut chain);
    why
}

fn go_on<R: Wait, S: Subject<P::Prep>, P: Passes, L: Law, Q: Question>(
    rt: &R,
    alloc: Global,
    task: &Task<'_, P, L, Q>,
    lines: &Lines<'_, S, P::Prep>,
    seat: &mut Seat<P::Prep>,
    plan: &Plan,
    chain: &mut Chain<P::Prep>,
    walk: &mut Walk<P::Prep>,
) -> Option<Why>
    requires about { IsAbout (searching_by P.Passes L.Law Q.Question task.now S.told) (P.offer task.now.passes.now) S.orders S.replies S.verdicts }
    requires joined { AreJoined lines.now }
    requires seats { AreSeats lines.now seat.old }
    requires say { All (LinkSays S.orders S.replies) chain.old.links.items }
    requires sound { IsSound (P.offers task.now.passes.now) (P.offer task.now.passes.now) walk.old }
    requires window { (0 < plan.now.window) × (plan.now.window ≤ 4096) }
    requires within { Within plan.now.limit walk.old.turns }
    ensures seats { AreSeats lines.now seat.new }
    ensures say { All (LinkSays S.orders S.replies) chain.new.links.items }
    ensures leads { Leads (searching_by P.Passes L.Law Q.Question task.now S.told) (standing_at (P.offer task.now.passes.now) walk.old) (standing_at (P.offer task.now.passes.now) walk.new) }
    ensures placed { walk.new.position ≤ length (cursors_of (P.offer task.now.passes.now (arc_value walk.new.shared).prep walk.new.file.items)) }
    ensures within { Within plan.now.limit walk.new.turns }
    ensures leaves { LeavesSo (searching_by P.Passes L.Law Q.Question task.now S.told) (P.offers task.now.passes.now) (P.offer task.now.passes.now) plan.now.limit walk.new result }
{
    for _ in rt.forever() {
        match advance(rt, alloc, task, lines, seat, plan, chain, walk) {
            Step::On => {}
            Step::Unsure => return None,
            Step::Ends(why) => return Some(why),
        }
    }
    unreachable!()
}
