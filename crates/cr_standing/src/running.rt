// The reduction.
ghost use Rattle.std.specs.Prelude.{◌≡◌, ◌≢◌, ◌<◌, ◌≤◌, ◌+◌, [], ℕ, drop, length, map, vec_capacity};
ghost use Rattle.cr_pool.specs.Bench.{IsManned};
ghost use Rattle.cr_pool.specs.Tally.{first_says};
ghost use Rattle.cr_reduce.specs.Bench.{Each, judging_of};
ghost use Rattle.cr_reduce.specs.Bound.{HasLevels, enough_turns};
ghost use Rattle.cr_reduce.specs.Ends.{EndsAsTold, FaultsWithCause, IsFixedAsTold};
ghost use Rattle.cr_reduce.specs.Reduction.{Within, start_of};
ghost use Rattle.cr_reduce.specs.Search.{IsAllTold, search_of};
ghost use Rattle.cr_reduce.specs.Sizes.{HasSize};
ghost use Rattle.cr_standing.specs.Crew.{IsBack};
ghost use Rattle.cr_standing_workers.specs.Channels.{AllAre};
ghost use Rattle.cr_standing.specs.Ends.{EndsStanding, IsManaged};
ghost use Rattle.cr_standing_workers.specs.Serving.{Serves};
ghost use Rattle.cr_standing_workers.specs.Told.{EndsIfTold, IsAbout, searching_by};
ghost use Rattle.cr_standing.specs.Walk.{IsSound, standing_at};

use crate::crew::{Back, crew};
use crate::deciding::step_by_first;
use crate::walk::{Walk, begin, end_of};
use cr_cursor::{Law, Passes};
use cr_outside::{Judge, Question};
use cr_reduce::{End, Plan, Why};
use cr_standing_workers::{Fit, Hint, Lines, Memory, Order, Reply, Seat, Subject, Task, True};
use crossbeam_channel::bounded_with;
use std::alloc::Global;
use std::marker::Brand;
use std::sync::{Mutex, Wait};
use std::thread::Threads;

/// How the walk ended: with all judges, and where and why.
#[derive(Drop)]
pub struct Ended<J, T> {
    pub judges: Vec<J>,
    pub walk: Walk<T>,
    pub why: Why,
}

/// Reduces a lawful file as `reduce` of `cr_reduce` does, by these judges, each in a thread that stays for the whole reduction, where
/// there are two or more and the question asks them. Hands them back in their order.
///
/// It may wait: for the judges, and for the workers. Where a thread can't be started the others do its part.
pub fn reduce_by_judges<
    R: Threads + Wait + Sync,
    P: Passes + Sync,
    L: Law + Sync,
    Q: Question + Sync,
    J: Judge + Send + Drop,
>(
    rt: &R,
    alloc: Global,
    passes: &P,
    law: &L,
    question: &Q,
    judges: Vec<J>,
    name: &str,
    file: Vec<u8>,
    plan: &Plan,
) -> (Vec<J>, End)
where
    P::Prep: Send + Sync,
    requires tokenizes { (n : ℕ) × HasSize file.items n }
    requires manned { IsManned J.key judges.items }
    requires workers { (0 < plan.now.workers) × (plan.now.workers ≤ length judges.items) }
    requires window { (0 < plan.now.window) × (plan.now.window ≤ 4096) }
    ensures { EndsStanding (search_of (P.offers passes.now) (L.lawful law.now) (Q.asks question.now) (Q.tells question.now) (first_says J.key J.says judges.items) name.now [])
        J.Judge (Q.asks question.now) plan.now.limit plan.now.workers file.items judges.items result.0.items result.1 }
{
    let task = Task {
        passes,
        law,
        question,
        name,
    };
    run::<R, Brand, P, L, Q, J>(rt, alloc, &task, judges, file, plan)
}

fn untouched(alloc: Global, file: Vec<u8>) -> End
    ensures file { result.file ≡ file }
    ensures rest { (result.accepted.items ≡ []) × (result.turns ≡ 0) × (result.why ≡ Why.NoMemory) }
{
    End {
        file,
        accepted: Vec::new(alloc),
        turns: 0,
        why: Why::NoMemory,
    }
}

/// The reduction, from its channels on.
fn run<
    R: Threads + Wait + Sync,
    S: Subject<P::Prep> + Send + Sync,
    P: Passes + Sync,
    L: Law + Sync,
    Q: Question + Sync,
    J: Judge + Send + Drop,
>(
    rt: &R,
    alloc: Global,
    task: &Task<'_, P, L, Q>,
    judges: Vec<J>,
    file: Vec<u8>,
    plan: &Plan,
) -> (Vec<J>, End)
where
    P::Prep: Send + Sync,
    requires about { IsAbout (searching_by P.Passes L.Law Q.Question task.now S.told) (P.offer task.now.passes.now) S.orders S.replies S.verdicts }
    requires told { AllAre (λ j. J.says (J.key j) ≡ S.told) judges.items }
    requires some { (0 < length judges.items) × (length judges.items ≤ 32) }
    requires workers { (0 < plan.now.workers) × (plan.now.workers ≤ length judges.items) }
    requires tokenizes { (n : ℕ) × HasSize file.items n }
    requires window { (0 < plan.now.window) × (plan.now.window ≤ 4096) }
    ensures ends { EndsStanding (searching_by P.Passes L.Law Q.Question task.now S.told) J.Judge (Q.asks task.now.question.now) plan.now.limit plan.now.workers file.items judges.items result.0.items result.1 }
{
    let Ok(remembered) = Memory::<S, P::Prep>::new(alloc) else {
        return (judges, untouched(alloc, file));
    };
    let walk = match begin(alloc, task.passes, file) {
        Ok(walk) => walk,
        Err(file) => return (judges, untouched(alloc, file)),
    };
    let memory = Mutex::new(remembered);
    let Ended { judges, walk, why } = go(rt, alloc, task, &memory, judges, plan, walk);
    (judges, end_of(walk, why))
}

/// The walk up to its end: by a crew, and where that doesn't decide a position, by the first judge.
fn go<
    R: Threads + Wait + Sync,
    S: Subject<P::Prep> + Send + Sync,
    P: Passes + Sync,
    L: Law + Sync,
    Q: Question + Sync,
    J: Judge + Send + Drop,
>(
    rt: &R,
    alloc: Global,
    task: &Task<'_, P, L, Q>,
    memory: &Mutex<Memory<S, P::Prep>>,
    mut judges: Vec<J>,
    plan: &Plan,
    mut walk: Walk<P::Prep>,
) -> Ended<J, P::Prep>
where
    P::Prep: Send + Sync,
    requires about { IsAbout (searching_by P.Passes L.Law Q.Question task.now S.told) (P.offer task.now.passes.now) S.orders S.replies S.verdicts }
    requires told { AllAre (λ j. J.says (J.key j) ≡ S.told) judges.items }
    requires some { 0 < length judges.items }
    requires workers { 0 < plan.now.workers }
    requires sound { IsSound (P.offers task.now.passes.now) (P.offer task.now.passes.now) walk }
    requires window { (0 < plan.now.window) × (plan.now.window ≤ 4096) }
    requires within { Within plan.now.limit walk.turns }
    ensures { IsManaged (searching_by P.Passes L.Law Q.Question task.now S.told) J.Judge (Q.asks task.now.question.now) (P.offer task.now.passes.now) plan.now.limit plan.now.workers walk judges.items result }
{
    let mut crewed = plan.workers > 1 && task.question.uses_judge();
    for _ in rt.forever() {
        let back = man(rt, alloc, task, memory, judges, crewed, plan, walk);
        crewed = back.manned;
        judges = back.judges;
        walk = back.walk;
        if let Some(why) = back.why {
            return Ended { judges, walk, why };
        }
        if let Some(why) = step_by_first(rt, alloc, task, memory, &mut judges, plan, &mut walk) {
            return Ended { judges, walk, why };
        }
    }
    unreachable!()
}

/// The walk by a crew of these judges, if it is to have one.
fn man<
    R: Threads + Wait + Sync,
    S: Subject<P::Prep> + Send + Sync,
    P: Passes + Sync,
    L: Law + Sync,
    Q: Question + Sync,
    J: Judge + Send + Drop,
>(
    rt: &R,
    alloc: Global,
    task: &Task<'_, P, L, Q>,
    memory: &Mutex<Memory<S, P::Prep>>,
    judges: Vec<J>,
    crewed: bool,
    plan: &Plan,
    walk: Walk<P::Prep>,
) -> Back<J, P::Prep>
where
    P::Prep: Send + Sync,
    requires about { IsAbout (searching_by P.Passes L.Law Q.Question task.now S.told) (P.offer task.now.passes.now) S.orders S.replies S.verdicts }
    requires told { AllAre (λ j. J.says (J.key j) ≡ S.told) judges.items }
    requires sound { IsSound (P.offers task.now.passes.now) (P.offer task.now.passes.now) walk }
    requires window { (0 < plan.now.window) × (plan.now.window ≤ 4096) }
    requires within { Within plan.now.limit walk.turns }
    ensures { IsBack (searching_by P.Passes L.Law Q.Question task.now S.told) J.Judge (Q.asks task.now.question.now) (P.offers task.now.passes.now) (P.offer task.now.passes.now) plan.now.limit 0 plan.now.workers walk judges.items result }
{
    if !crewed {
        return unmanned(judges, walk);
    }
    let made = judges.len();
    let Ok(back) = Vec::with_capacity(alloc, made) else {
        return unmanned(judges, walk);
    };
    let capacity = plan.window as usize + plan.workers as usize;
    let Ok((orders, orders_out, orders_pass)) = bounded_with::<Order<P::Prep>, (), Fit<S>, Global>(
        alloc, capacity,
    ) else {
        return unmanned(judges, walk);
    };
    let Ok((replies, replies_out, replies_pass)) = bounded_with::<
        Reply<P::Prep>,
        (),
        True<S>,
        Global,
    >(alloc, capacity) else {
        return unmanned(judges, walk);
    };
    let hint = Hint::new();
    let lines = Lines {
        orders: &orders,
        orders_out: &orders_out,
        replies: &replies,
        replies_out: &replies_out,
        hint: &hint,
        memory,
    };
    let seat = Seat {
        orders: orders_pass,
        replies: replies_pass,
        variant: Vec::new(alloc),
    };
    let stops = plan.workers as usize;
    crew(
        rt, alloc, task, &lines, judges, back, made, stops, seat, 0, plan, walk,
    )
}

/// Without a crew.
fn unmanned<J: Drop, T: Drop>(judges: Vec<J>, walk: Walk<T>) -> Back<J, T>
    ensures { (result.judges ≡ judges) × (result.walk ≡ walk) × (result.why ≡ None) }
{
    Back {
        judges,
        walk,
        why: None,
        manned: false,
    }
}
