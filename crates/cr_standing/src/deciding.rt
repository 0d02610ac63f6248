// The first judge's own steps.
ghost use Rattle.std.specs.Prelude.{◌≡◌, ◌≢◌, ◌<◌, ◌≤◌, ◌+◌, ◌∷◌, [], ℕ, Some, None, drop, length};
ghost use Rattle.std.specs.Arc.{arc_value};
ghost use Rattle.cr_reduce.specs.Bench.{Each, judging_of};
ghost use Rattle.cr_reduce.specs.Reduction.{Within, cursors_of};
ghost use Rattle.cr_reduce.specs.Walk.{EndsHere};
ghost use Rattle.cr_reduce.specs.declared.end.Why.{Why};
ghost use Rattle.cr_standing_workers.specs.Channels.{AllAre};
ghost use Rattle.cr_standing_workers.specs.Serving.{Serves};
ghost use Rattle.cr_standing_workers.specs.Told.{IsAbout, searching_by};
ghost use Rattle.cr_standing.specs.Walk.{IsSound, Leads, standing_at};

use crate::walk::Walk;
use crate::walking::take_found;
use cr_cursor::{Law, Never, Passes};
use cr_outside::{Judge, Question};
use cr_reduce::{Plan, Why};
use cr_standing_workers::{Memory, Subject, Task, Tried, try_at};
use std::alloc::Global;
use std::sync::{Mutex, Wait};

/// Tries the walk's next position, and goes on behind it, or says why the walk has ended.
fn decide<R: Wait, S: Subject<P::Prep>, P: Passes, L: Law, Q: Question, J: Judge>(
    rt: &R,
    alloc: Global,
    task: &Task<'_, P, L, Q>,
    memory: &Mutex<Memory<S, P::Prep>>,
    judge: &mut J,
    plan: &Plan,
    walk: &mut Walk<P::Prep>,
) -> Option<Why>
    requires about { IsAbout (searching_by P.Passes L.Law Q.Question task.now S.told) (P.offer task.now.passes.now) S.orders S.replies S.verdicts }
    requires told { J.says (J.key judge.old) ≡ S.told }
    requires sound { IsSound (P.offers task.now.passes.now) (P.offer task.now.passes.now) walk.old }
    requires below { walk.old.position < walk.old.count }
    requires more { plan.now.limit ≢ Some walk.old.turns }
    requires within { Within plan.now.limit walk.old.turns }
    ensures serves { Serves J.Judge (Q.asks task.now.question.now) judge.old judge.new }
    ensures leads { Leads (searching_by P.Passes L.Law Q.Question task.now S.told) (standing_at (P.offer task.now.passes.now) walk.old) (standing_at (P.offer task.now.passes.now) walk.new) }
    ensures sound { result ≡ None → IsSound (P.offers task.now.passes.now) (P.offer task.now.passes.now) walk.new }
    ensures placed { walk.new.position ≤ length (cursors_of (P.offer task.now.passes.now (arc_value walk.new.shared).prep walk.new.file.items)) }
    ensures within { Within plan.now.limit walk.new.turns }
    ensures ended { (why : Why) → result ≡ Some why → EndsHere (searching_by P.Passes L.Law Q.Question task.now S.told)
        (judging_of J.Judge (judge.old ∷ [])) (judging_of J.Judge (judge.new ∷ [])) plan.now.limit (standing_at (P.offer task.now.passes.now) walk.new) why }
    ensures first { (turn worker : ℕ) → result ≡ Some (Why.Fault turn worker) → worker ≡ 0 }
{
    let mut variant = Vec::new(alloc);
    let mut never = Never { looks: 0 };
    let position = walk.position;
    match try_at(
        rt,
        alloc,
        task,
        memory,
        judge,
        &walk.shared,
        position,
        &mut variant,
        &mut never,
    ) {
        Tried::No => {
            walk.position += 1;
            walk.turns += 1;
            None
        }
        Tried::Yes => match take_found::<S, P, L, Q>(alloc, task, walk, position) {
            Ok(()) => None,
            Err(_) => Some(Why::NoMemory),
        },
        Tried::Failed => Some(Why::Fault(walk.turns + 1, 0)),
        Tried::Stopped | Tried::NoMemory => Some(Why::NoMemory),
    }
}

/// Decides the next position by this judge, or begins a new round, or says why the walk has ended.
fn step<R: Wait, S: Subject<P::Prep>, P: Passes, L: Law, Q: Question, J: Judge>(
    rt: &R,
    alloc: Global,
    task: &Task<'_, P, L, Q>,
    memory: &Mutex<Memory<S, P::Prep>>,
    judge: &mut J,
    plan: &Plan,
    walk: &mut Walk<P::Prep>,
) -> Option<Why>
    requires about { IsAbout (searching_by P.Passes L.Law Q.Question task.now S.told) (P.offer task.now.passes.now) S.orders S.replies S.verdicts }
    requires told { J.says (J.key judge.old) ≡ S.told }
    requires sound { IsSound (P.offers task.now.passes.now) (P.offer task.now.passes.now) walk.old }
    requires within { Within plan.now.limit walk.old.turns }
    ensures serves { Serves J.Judge (Q.asks task.now.question.now) judge.old judge.new }
    ensures leads { Leads (searching_by P.Passes L.Law Q.Question task.now S.told) (standing_at (P.offer task.now.passes.now) walk.old) (standing_at (P.offer task.now.passes.now) walk.new) }
    ensures sound { result ≡ None → IsSound (P.offers task.now.passes.now) (P.offer task.now.passes.now) walk.new }
    ensures placed { walk.new.position ≤ length (cursors_of (P.offer task.now.passes.now (arc_value walk.new.shared).prep walk.new.file.items)) }
    ensures within { Within plan.now.limit walk.new.turns }
    ensures ended { (why : Why) → result ≡ Some why → EndsHere (searching_by P.Passes L.Law Q.Question task.now S.told)
        (judging_of J.Judge (judge.old ∷ [])) (judging_of J.Judge (judge.new ∷ [])) plan.now.limit (standing_at (P.offer task.now.passes.now) walk.new) why }
    ensures first { (turn worker : ℕ) → result ≡ Some (Why.Fault turn worker) → worker ≡ 0 }
{
    if walk.position == walk.count {
        if !walk.changed {
            return Some(Why::Fixed);
        }
        walk.position = 0;
        walk.changed = false;
        return None;
    }
    if plan.limit == Some(walk.turns) {
        return Some(Why::Limit);
    }
    decide(rt, alloc, task, memory, judge, plan, walk)
}

/// The same by the first of these judges.
pub fn step_by_first<R: Wait, S: Subject<P::Prep>, P: Passes, L: Law, Q: Question, J: Judge>(
    rt: &R,
    alloc: Global,
    task: &Task<'_, P, L, Q>,
    memory: &Mutex<Memory<S, P::Prep>>,
    judges: &mut Vec<J>,
    plan: &Plan,
    walk: &mut Walk<P::Prep>,
) -> Option<Why>
    requires about { IsAbout (searching_by P.Passes L.Law Q.Question task.now S.told) (P.offer task.now.passes.now) S.orders S.replies S.verdicts }
    requires some { 0 < length judges.old.items }
    requires told { AllAre (λ j. J.says (J.key j) ≡ S.told) judges.old.items }
    requires workers { 0 < plan.now.workers }
    requires sound { IsSound (P.offers task.now.passes.now) (P.offer task.now.passes.now) walk.old }
    requires within { Within plan.now.limit walk.old.turns }
    ensures serve { Each (Serves J.Judge (Q.asks task.now.question.now)) judges.old.items judges.new.items }
    ensures idle { drop plan.now.workers judges.new.items ≡ drop plan.now.workers judges.old.items }
    ensures leads { Leads (searching_by P.Passes L.Law Q.Question task.now S.told) (standing_at (P.offer task.now.passes.now) walk.old) (standing_at (P.offer task.now.passes.now) walk.new) }
    ensures sound { result ≡ None → IsSound (P.offers task.now.passes.now) (P.offer task.now.passes.now) walk.new }
    ensures placed { walk.new.position ≤ length (cursors_of (P.offer task.now.passes.now (arc_value walk.new.shared).prep walk.new.file.items)) }
    ensures within { Within plan.now.limit walk.new.turns }
    ensures ended { (why : Why) → result ≡ Some why → EndsHere (searching_by P.Passes L.Law Q.Question task.now S.told)
        (judging_of J.Judge judges.old.items) (judging_of J.Judge judges.new.items) plan.now.limit (standing_at (P.offer task.now.passes.now) walk.new) why }
    ensures first { (turn worker : ℕ) → result ≡ Some (Why.Fault turn worker) → worker ≡ 0 }
{
    step(rt, alloc, task, memory, &mut judges[0], plan, walk)
}
