// The steps of the walk, up to its end.
ghost use Rattle.std.specs.Prelude.{◌≡◌, ◌≢◌, ◌<◌, ◌≤◌, ℕ, List, IsSome, Some, None, drop, length, false};
ghost use Rattle.std.specs.Bool.{OnTrue};
ghost use Rattle.cr_reduce.specs.Keeping.{Grows};
ghost use Rattle.cr_reduce.specs.declared.end.Accepted.{Accepted as Row};
ghost use Rattle.cr_reduce.specs.declared.end.Why.{Why};
ghost use Rattle.cr_reduce.specs.Bench.{GoesOn, judging, keys_of};
ghost use Rattle.cr_reduce.specs.Ends.{calls_beside};
ghost use Rattle.cr_reduce.specs.Reduction.{Within, cursors_of};
ghost use Rattle.cr_reduce.specs.Search.{AreMade, AreRightBy, searching};
ghost use Rattle.cr_reduce.specs.Walk.{Advances, AsksFew, AsksOnlyTried, EndsHere, GoesOver, IsSound, Walked, calls_beside_step, state_of, work_of};

use crate::end::{Accepted, Plan, Why};
use crate::keeper::Keeper;
use crate::look::look;
use crate::pace::Pace;
use crate::walk::Walk;
use cr_cursor::{Law, Passes};
use cr_outside::{Judge, Question};
use cr_pool::Bench;
use std::alloc::Global;
use std::thread::Threads;

/// Looks at the next positions, or begins a new round, or says why the walk has ended.
fn advance<R: Threads + Sync, P: Passes + Sync, L: Law + Sync, Q: Question + Sync, J: Judge + Send>(
    rt: &R,
    alloc: Global,
    passes: &P,
    law: &L,
    question: &Q,
    bench: &mut Bench<J>,
    name: &str,
    plan: &Plan,
    pace: &mut Pace,
    walk: &mut Walk<P::Prep>,
) -> Option<Why>
where
    P::Prep: Sync,
    requires sound { IsSound (P.offers passes.now) (P.offer passes.now) walk.old }
    requires workers { (0 < plan.now.workers) × (plan.now.workers ≤ length bench.old.judges) }
    requires window { (0 < plan.now.window) × (plan.now.window ≤ 4096) }
    requires right { AreRightBy (searching P.Passes passes.now L.Law law.now Q.Question question.now name.now J.Judge bench.old) bench.old.kept }
    requires within { Within plan.now.limit walk.old.turns }
    ensures advances { result ≡ None → Advances (searching P.Passes passes.now L.Law law.now Q.Question question.now name.now J.Judge bench.old)
        (judging J.Judge bench.old) (judging J.Judge bench.new) (state_of (P.offer passes.now) walk.old) (state_of (P.offer passes.now) walk.new) }
    ensures sound { result ≡ None → IsSound (P.offers passes.now) (P.offer passes.now) walk.new }
    ensures less { result ≡ None → work_of walk.new < work_of walk.old }
    ensures within { Within plan.now.limit walk.new.turns }
    ensures passed { IsSome result → GoesOver (searching P.Passes passes.now L.Law law.now Q.Question question.now name.now J.Judge bench.old)
        (judging J.Judge bench.old) (judging J.Judge bench.new) (state_of (P.offer passes.now) walk.old) (state_of (P.offer passes.now) walk.new) }
    ensures ended { (why : Why) → result ≡ Some why → EndsHere (searching P.Passes passes.now L.Law law.now Q.Question question.now name.now J.Judge bench.old)
        (judging J.Judge bench.old) (judging J.Judge bench.new) plan.now.limit (state_of (P.offer passes.now) walk.new) why }
    ensures asks { AsksOnlyTried (searching P.Passes passes.now L.Law law.now Q.Question question.now name.now J.Judge bench.old)
        (judging J.Judge bench.old) (judging J.Judge bench.new) (state_of (P.offer passes.now) walk.old) }
    ensures few { AsksFew plan.now.window (judging J.Judge bench.old) (judging J.Judge bench.new)
        (state_of (P.offer passes.now) walk.old) (state_of (P.offer passes.now) walk.new) (calls_beside_step plan.now.window result) }
    ensures keys { keys_of J.Judge bench.new ≡ keys_of J.Judge bench.old }
    ensures others { drop plan.now.workers bench.new.judges ≡ drop plan.now.workers bench.old.judges }
    ensures silent { Q.asks question.now ≡ false → bench.new.judges ≡ bench.old.judges }
    ensures goes_on { GoesOn (judging J.Judge bench.old) (judging J.Judge bench.new) }
    ensures made { AreMade (searching P.Passes passes.now L.Law law.now Q.Question question.now name.now J.Judge bench.old)
        (judging J.Judge bench.old) (judging J.Judge bench.new) bench.new.kept }
{
    if walk.position == walk.count {
        if !walk.changed {
            return Some(Why::Fixed);
        }
        walk.position = 0;
        walk.changed = false;
        return None;
    }
    if plan.limit == Some(walk.turns) {
        return Some(Why::Limit);
    }
    look(
        rt, alloc, passes, law, question, bench, name, plan, pace, walk,
    )
}

/// Goes on until the walk ends, and says why.
pub fn walk_on<
    R: Threads + Sync,
    P: Passes + Sync,
    L: Law + Sync,
    Q: Question + Sync,
    J: Judge + Send,
    K: Keeper,
>(
    rt: &R,
    alloc: Global,
    passes: &P,
    law: &L,
    question: &Q,
    bench: &mut Bench<J>,
    name: &str,
    plan: &Plan,
    walk: &mut Walk<P::Prep>,
    keeper: &mut K,
) -> Why
where
    P::Prep: Sync,
    requires sound { IsSound (P.offers passes.now) (P.offer passes.now) walk.old }
    requires workers { (0 < plan.now.workers) × (plan.now.workers ≤ length bench.old.judges) }
    requires window { (0 < plan.now.window) × (plan.now.window ≤ 4096) }
    requires right { AreRightBy (searching P.Passes passes.now L.Law law.now Q.Question question.now name.now J.Judge bench.old) bench.old.kept }
    requires within { Within plan.now.limit walk.old.turns }
    requires keeps { K.keeps keeper.old walk.old.accepted.items }
    ensures keeps { result ≢ Why.NoMemory → K.keeps keeper.new walk.new.accepted.items }
    ensures kept_on { K.kept_on keeper.old keeper.new walk.new.accepted.items }
    ensures held { K.held keeper.new ≡ K.held keeper.old }
    ensures walked { Walked (searching P.Passes passes.now L.Law law.now Q.Question question.now name.now J.Judge bench.old)
        (judging J.Judge bench.old) (judging J.Judge bench.new) (state_of (P.offer passes.now) walk.old) (state_of (P.offer passes.now) walk.new) }
    ensures ended { EndsHere (searching P.Passes passes.now L.Law law.now Q.Question question.now name.now J.Judge bench.old)
        (judging J.Judge bench.old) (judging J.Judge bench.new) plan.now.limit (state_of (P.offer passes.now) walk.new) result }
    ensures placed { walk.new.position ≤ length (cursors_of (P.offer passes.now walk.new.prep walk.new.file.items)) }
    ensures within { Within plan.now.limit walk.new.turns }
    ensures few { AsksFew plan.now.window (judging J.Judge bench.old) (judging J.Judge bench.new)
        (state_of (P.offer passes.now) walk.old) (state_of (P.offer passes.now) walk.new) (calls_beside plan.now.window result) }
    ensures keys { keys_of J.Judge bench.new ≡ keys_of J.Judge bench.old }
    ensures others { drop plan.now.workers bench.new.judges ≡ drop plan.now.workers bench.old.judges }
    ensures silent { Q.asks question.now ≡ false → bench.new.judges ≡ bench.old.judges }
    ensures made { AreMade (searching P.Passes passes.now L.Law law.now Q.Question question.now name.now J.Judge bench.old)
        (judging J.Judge bench.old) (judging J.Judge bench.new) bench.new.kept }
{
    let mut pace = Pace::new(question.uses_judge());
    loop {
        let count = walk.accepted.len() as u64;
        let step = advance(
            rt, alloc, passes, law, question, bench, name, plan, &mut pace, walk,
        );
        if let Some(why) = step {
            return why;
        }
        if !keep_newest(alloc, keeper, &walk.accepted, count) {
            return Why::NoMemory;
        }
    }
}

// Keeps the newest row, where the rows were so many and one is more. Answers whether it was kept.
fn keep_newest<K: Keeper>(alloc: Global, keeper: &mut K, rows: &Vec<Accepted>, count: u64) -> bool
    requires { (old : List Row) × (length old ≡ count) × K.keeps keeper.old old × Grows old rows.now.items }
    ensures keeps { OnTrue result (K.keeps keeper.new rows.now.items) }
    ensures kept_on { K.kept_on keeper.old keeper.new rows.now.items }
    ensures held { K.held keeper.new ≡ K.held keeper.old }
{
    if count == rows.len() as u64 {
        return true;
    }
    let row = rows[count as usize];
    keeper.keep(alloc, row, count).is_ok()
}
