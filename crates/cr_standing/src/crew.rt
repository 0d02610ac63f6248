// The workers: each is started in a scope of its own, within which the others are.
ghost use Rattle.std.specs.Prelude.{◌≡◌, ◌≤◌, ◌<◌, ◌+◌, ◌∷◌, ◌++◌, [], ℕ, List, length, vec_capacity};
ghost use Rattle.std.specs.Thread.{IsSync};
ghost use Rattle.cr_reduce.specs.Reduction.{Within};
ghost use Rattle.cr_standing_workers.specs.Channels.{AllAre, AreJoined, AreSeats};
ghost use Rattle.cr_standing.specs.Crew.{IsBack};
ghost use Rattle.cr_standing_workers.specs.Serving.{Serves};
ghost use Rattle.cr_standing_workers.specs.Told.{IsAbout, searching_by};
ghost use Rattle.cr_standing.specs.Walk.{IsSound};

use crate::walk::Walk;
use crate::walking::walk_on;
use cr_cursor::{Law, Passes};
use cr_outside::{Judge, Question};
use cr_reduce::{Plan, Why};
use cr_standing_workers::{Lines, Seat, Subject, Task, Word, another_seat, serve, stop_workers};
use std::alloc::Global;
use std::snapshot::Snapshot;
use std::sync::Wait;
use std::thread;
use std::thread::Threads;

/// What comes back: all judges, where the walk stands, and why it ended, if it did.
#[derive(Drop)]
pub struct Back<J, T> {
    pub judges: Vec<J>,
    pub walk: Walk<T>,
    pub why: Option<Why>,
    /// Whether a thread was started.
    pub manned: bool,
}

/// With no worker left to start: the walk by those that were started, so many, and the orders to stop.
fn walk_and_stop<R: Wait, S: Subject<P::Prep>, P: Passes, L: Law, Q: Question, J: Judge + Drop>(
    rt: &R,
    alloc: Global,
    task: &Task<'_, P, L, Q>,
    lines: &Lines<'_, S, P::Prep>,
    judges: Vec<J>,
    made: usize,
    stops: usize,
    mut seat: Seat<P::Prep>,
    threads: u64,
    plan: &Plan,
    mut walk: Walk<P::Prep>,
) -> Back<J, P::Prep>
    requires about { IsAbout (searching_by P.Passes L.Law Q.Question task.now S.told) (P.offer task.now.passes.now) S.orders S.replies S.verdicts }
    requires joined { AreJoined lines.now }
    requires seats { AreSeats lines.now seat }
    requires sound { IsSound (P.offers task.now.passes.now) (P.offer task.now.passes.now) walk }
    requires window { (0 < plan.now.window) × (plan.now.window ≤ 4096) }
    requires within { Within plan.now.limit walk.turns }
    requires room { (judges.items ≡ []) × (made ≤ vec_capacity judges) }
    ensures { IsBack (searching_by P.Passes L.Law Q.Question task.now S.told) J.Judge (Q.asks task.now.question.now) (P.offers task.now.passes.now) (P.offer task.now.passes.now) plan.now.limit made stops walk [] result }
{
    let why = walk_on(rt, alloc, task, lines, &mut seat, threads, plan, &mut walk);
    stop_workers(rt, lines, &mut seat, stops);
    Back {
        judges,
        walk,
        why,
        manned: threads > 0,
    }
}

/// A worker was joined.
fn hand_on<J: Drop, T: Drop>(back: Back<J, T>, other: J) -> Back<J, T>
    requires room { length back.judges.items < vec_capacity back.judges }
    ensures judges { (result.judges.items ≡ back.judges.items ++ other ∷ []) × (vec_capacity result.judges ≡ vec_capacity back.judges) }
    ensures same { (result.walk ≡ back.walk) × (result.why ≡ back.why) }
{
    let Back {
        mut judges,
        walk,
        why,
        manned,
    } = back;
    judges.push_reserved(other);
    Back {
        judges,
        walk,
        why,
        manned,
    }
}

/// Starts the workers, so many, the last first, has the walk go on, and joins them. Of the judges, the first ones work; those behind them do nothing.
pub fn crew<
    R: Threads + Wait + Sync,
    S: Subject<P::Prep> + Send + Sync,
    P: Passes + Sync,
    L: Law + Sync,
    Q: Question + Sync,
    J: Judge + Send + Drop,
>(
    rt: &R,
    alloc: Global,
    task: &Task<'_, P, L, Q>,
    lines: &Lines<'_, S, P::Prep>,
    mut others: Vec<J>,
    judges: Vec<J>,
    made: usize,
    stops: usize,
    mut seat: Seat<P::Prep>,
    threads: u64,
    plan: &Plan,
    walk: Walk<P::Prep>,
) -> Back<J, P::Prep>
where
    P::Prep: Send + Sync,
    requires about { IsAbout (searching_by P.Passes L.Law Q.Question task.now S.told) (P.offer task.now.passes.now) S.orders S.replies S.verdicts }
    requires all_told { AllAre (λ j. J.says (J.key j) ≡ S.told) others.items }
    requires joined { AreJoined lines.now }
    requires seats { AreSeats lines.now seat }
    requires sound { IsSound (P.offers task.now.passes.now) (P.offer task.now.passes.now) walk }
    requires window { (0 < plan.now.window) × (plan.now.window ≤ 4096) }
    requires within { Within plan.now.limit walk.turns }
    requires room { (judges.items ≡ []) × (made ≤ vec_capacity judges) }
    requires few { length others.items ≤ made }
    ensures { IsBack (searching_by P.Passes L.Law Q.Question task.now S.told) J.Judge (Q.asks task.now.question.now) (P.offers task.now.passes.now) (P.offer task.now.passes.now) plan.now.limit made stops walk others.items result }
{
    let Some(other) = others.pop() else {
        return walk_and_stop(
            rt, alloc, task, lines, judges, made, stops, seat, threads, plan, walk,
        );
    };
    if others.len() >= stops {
        let back = crew(
            rt, alloc, task, lines, others, judges, made, stops, seat, threads, plan, walk,
        );
        return hand_on(back, other);
    }
    let other_seat = another_seat(alloc, lines, &mut seat);
    thread::scope(
        thread::scope_env(),
        rt,
        |scope| -> Back<J, P::Prep>
            requires sync { IsSync R.row }
            requires about { IsAbout (searching_by P.Passes L.Law Q.Question task.now S.told) (P.offer task.now.passes.now) S.orders S.replies S.verdicts }
            requires other_told { J.says (J.key other) ≡ S.told }
            requires all_told { AllAre (λ j. J.says (J.key j) ≡ S.told) others.items }
            requires joined { AreJoined lines.now }
            requires seats { AreSeats lines.now seat }
            requires other_seat { AreSeats lines.now other_seat }
            requires sound { IsSound (P.offers task.now.passes.now) (P.offer task.now.passes.now) walk }
            requires window { (0 < plan.now.window) × (plan.now.window ≤ 4096) }
            requires within { Within plan.now.limit walk.turns }
            requires room { (judges.items ≡ []) × (made ≤ vec_capacity judges) }
            requires few { length others.items < made }
            requires works { length others.items < stops }
            ensures { IsBack (searching_by P.Passes L.Law Q.Question task.entry.now S.told) J.Judge (Q.asks task.entry.now.question.now) (P.offers task.entry.now.passes.now) (P.offer task.entry.now.passes.now) plan.entry.now.limit made stops walk
                (others.items ++ other ∷ []) result }
        {
            let word = Word {
                question: task.question,
                judge: Snapshot::of(&other),
            };
            let started = scope.spawn_with(
                word,
                move || -> J
                    requires about { IsAbout (searching_by P.Passes L.Law Q.Question task.now S.told) (P.offer task.now.passes.now) S.orders S.replies S.verdicts }
                    requires told { J.says (J.key other) ≡ S.told }
                    requires joined { AreJoined lines.now }
                    requires seats { AreSeats lines.now other_seat }
                    ensures { Serves J.Judge (Q.asks task.entry.now.question.now) other result }
                { serve(rt, alloc, task, lines, other, other_seat) },
            );
            let threads = threads.saturating_add(u64::from(started.is_ok()));
            let back = crew(
                rt, alloc, task, lines, others, judges, made, stops, seat, threads, plan, walk,
            );
            let other = match started {
                Ok(handle) => handle.join(rt),
                Err(refused) => (refused.value)(),
            };
            hand_on(back, other)
        },
    )
}
