// The positions of one epoch.
ghost use Rattle.std.specs.Prelude.{◌≡◌, ◌≢◌, ◌<◌, ◌≤◌, ◌+◌, ◌-◌, ℕ, IsSome, Some, None, drop, false, length};
ghost use Rattle.cr_reduce.specs.Bench.{AsksAtMost, GoesOn, judging, keys_of};
ghost use Rattle.cr_reduce.specs.Reduction.{Within};
ghost use Rattle.cr_reduce.specs.Search.{AreMade, AreRightBy, searching};
ghost use Rattle.cr_reduce.specs.Walk.{AsksFew, AsksOnlyTried, EndsHere, EpochSays, GoesOver, IsLength, IsSound, MovesOn, calls_beside_step, state_of, work_of};
ghost use Rattle.cr_reduce.specs.declared.end.Why.{Why};

use crate::end::{Plan, Why};
use crate::pace::Pace;
use crate::take::take;
use crate::walk::Walk;
use cr_cursor::{Law, Passes};
use cr_outside::{Judge, Question};
use cr_pool::{Bench, EpochEnd, Job};
use std::alloc::Global;
use std::thread::Threads;

/// How many positions are tried at once: as many as the window allows, as are left in the round, and as the limit leaves.
pub fn length_of(plan: &Plan, left: u64, turns: u64) -> u64
    requires some { 0 < left }
    requires window { (0 < plan.now.window) × (plan.now.window ≤ 4096) }
    requires more { plan.now.limit ≢ Some turns }
    requires within { Within plan.now.limit turns }
    ensures { IsLength plan.now.limit plan.now.window left turns result }
{
    let most = left.min(u64::from(plan.window));
    match plan.limit {
        Some(limit) => most.min(limit - turns),
        None => most,
    }
}

/// Tries the walk's next positions by the workers.
fn try_next<
    R: Threads + Sync,
    P: Passes + Sync,
    L: Law + Sync,
    Q: Question + Sync,
    J: Judge + Send,
>(
    rt: &R,
    alloc: Global,
    passes: &P,
    law: &L,
    question: &Q,
    bench: &mut Bench<J>,
    name: &str,
    workers: u32,
    walk: &Walk<P::Prep>,
    len: u64,
) -> EpochEnd
where
    P::Prep: Sync,
    requires sound { IsSound (P.offers passes.now) (P.offer passes.now) walk.now }
    requires workers { (0 < workers) × (workers ≤ length bench.old.judges) }
    requires right { AreRightBy (searching P.Passes passes.now L.Law law.now Q.Question question.now name.now J.Judge bench.old) bench.old.kept }
    requires placed { walk.now.position + len ≤ walk.now.count }
    requires few { len ≤ 4096 }
    ensures says { EpochSays (searching P.Passes passes.now L.Law law.now Q.Question question.now name.now J.Judge bench.old)
        (judging J.Judge bench.old) (judging J.Judge bench.new) (state_of (P.offer passes.now) walk.now) len result }
    ensures asks { AsksOnlyTried (searching P.Passes passes.now L.Law law.now Q.Question question.now name.now J.Judge bench.old)
        (judging J.Judge bench.old) (judging J.Judge bench.new) (state_of (P.offer passes.now) walk.now) }
    ensures few { AsksAtMost len (judging J.Judge bench.old) (judging J.Judge bench.new) }
    ensures keys { keys_of J.Judge bench.new ≡ keys_of J.Judge bench.old }
    ensures others { drop workers bench.new.judges ≡ drop workers bench.old.judges }
    ensures silent { Q.asks question.now ≡ false → bench.new.judges ≡ bench.old.judges }
    ensures goes_on { GoesOn (judging J.Judge bench.old) (judging J.Judge bench.new) }
    ensures made { AreMade (searching P.Passes passes.now L.Law law.now Q.Question question.now name.now J.Judge bench.old)
        (judging J.Judge bench.old) (judging J.Judge bench.new) bench.new.kept }
{
    let job = Job {
        passes,
        prep: &walk.prep,
        law,
        question,
        name,
        file: &walk.file,
        size: walk.size,
        start: walk.position,
        len,
        workers,
    };
    bench.epoch(rt, alloc, &job)
}

/// Looks at the walk's next positions, and goes on to where the epoch ended, or says why the walk ends.
pub fn look<
    R: Threads + Sync,
    P: Passes + Sync,
    L: Law + Sync,
    Q: Question + Sync,
    J: Judge + Send,
>(
    rt: &R,
    alloc: Global,
    passes: &P,
    law: &L,
    question: &Q,
    bench: &mut Bench<J>,
    name: &str,
    plan: &Plan,
    pace: &mut Pace,
    walk: &mut Walk<P::Prep>,
) -> Option<Why>
where
    P::Prep: Sync,
    requires sound { IsSound (P.offers passes.now) (P.offer passes.now) walk.old }
    requires below { walk.old.position < walk.old.count }
    requires workers { (0 < plan.now.workers) × (plan.now.workers ≤ length bench.old.judges) }
    requires window { (0 < plan.now.window) × (plan.now.window ≤ 4096) }
    requires right { AreRightBy (searching P.Passes passes.now L.Law law.now Q.Question question.now name.now J.Judge bench.old) bench.old.kept }
    requires more { plan.now.limit ≢ Some walk.old.turns }
    requires within { Within plan.now.limit walk.old.turns }
    ensures moved { result ≡ None → MovesOn (searching P.Passes passes.now L.Law law.now Q.Question question.now name.now J.Judge bench.old)
        (judging J.Judge bench.old) (judging J.Judge bench.new) (state_of (P.offer passes.now) walk.old) (state_of (P.offer passes.now) walk.new) }
    ensures sound { result ≡ None → IsSound (P.offers passes.now) (P.offer passes.now) walk.new }
    ensures less { result ≡ None → work_of walk.new < work_of walk.old }
    ensures within { Within plan.now.limit walk.new.turns }
    ensures passed { IsSome result → GoesOver (searching P.Passes passes.now L.Law law.now Q.Question question.now name.now J.Judge bench.old)
        (judging J.Judge bench.old) (judging J.Judge bench.new) (state_of (P.offer passes.now) walk.old) (state_of (P.offer passes.now) walk.new) }
    ensures ended { (why : Why) → result ≡ Some why → EndsHere (searching P.Passes passes.now L.Law law.now Q.Question question.now name.now J.Judge bench.old)
        (judging J.Judge bench.old) (judging J.Judge bench.new) plan.now.limit (state_of (P.offer passes.now) walk.new) why }
    ensures asks { AsksOnlyTried (searching P.Passes passes.now L.Law law.now Q.Question question.now name.now J.Judge bench.old)
        (judging J.Judge bench.old) (judging J.Judge bench.new) (state_of (P.offer passes.now) walk.old) }
    ensures few { AsksFew plan.now.window (judging J.Judge bench.old) (judging J.Judge bench.new)
        (state_of (P.offer passes.now) walk.old) (state_of (P.offer passes.now) walk.new) (calls_beside_step plan.now.window result) }
    ensures keys { keys_of J.Judge bench.new ≡ keys_of J.Judge bench.old }
    ensures others { drop plan.now.workers bench.new.judges ≡ drop plan.now.workers bench.old.judges }
    ensures silent { Q.asks question.now ≡ false → bench.new.judges ≡ bench.old.judges }
    ensures goes_on { GoesOn (judging J.Judge bench.old) (judging J.Judge bench.new) }
    ensures made { AreMade (searching P.Passes passes.now L.Law law.now Q.Question question.now name.now J.Judge bench.old)
        (judging J.Judge bench.old) (judging J.Judge bench.new) bench.new.kept }
{
    let step = pace.within(plan);
    let len = length_of(&step, walk.count - walk.position, walk.turns);
    match try_next(
        rt,
        alloc,
        passes,
        law,
        question,
        bench,
        name,
        step.workers,
        walk,
        len,
    ) {
        EpochEnd::NoneOf(passed) => {
            walk.position += passed;
            walk.turns += passed;
            pace.go_on(passed, bench.refused(step.workers));
            None
        }
        EpochEnd::Found(position, variant) => match take(alloc, passes, walk, position, variant) {
            Ok(()) => {
                pace.accept();
                None
            }
            Err(_) => Some(Why::NoMemory),
        },
        EpochEnd::Fault(position, worker) => {
            walk.turns += position - walk.position;
            walk.position = position;
            Some(Why::Fault(walk.turns + 1, worker))
        }
        EpochEnd::NoMemory => Some(Why::NoMemory),
    }
}
