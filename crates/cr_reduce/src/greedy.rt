// The reduction.
ghost use Rattle.std.specs.Prelude.{◌≡◌, ◌≢◌, ◌<◌, ◌≤◌, ℕ, drop, length, IfErr, IfOk, false};
ghost use Rattle.cr_reduce.specs.Bench.{AsksAtMost, GoesOn, judging, keys_of};
ghost use Rattle.cr_reduce.specs.Bound.{HasLevels, enough_turns};
ghost use Rattle.cr_reduce.specs.Ends.{end_of_walk, EndsAsTold, EndsInRun, FaultsWithCause, IsFixedAsTold, IsFixedInRun, most_calls};
ghost use Rattle.cr_reduce.specs.Search.{AreMade, AreRightBy, AsksOnlyCandidates, IsAllTold, searching};
ghost use Rattle.cr_reduce.specs.Reduction.{Within, start_of};
ghost use Rattle.cr_reduce.specs.Sizes.{HasSize};
ghost use Rattle.cr_reduce.specs.Walk.{IsSound, state_of};

use crate::advance::walk_on;
use crate::end::{End, Plan, Why};
use crate::keeper::NoKeeper;
use crate::measure::size_of;
use crate::walk::Walk;
use cr_cursor::{Law, Passes, positions};
use cr_outside::{Judge, Question};
use cr_pool::Bench;
use std::alloc::Global;
use std::thread::Threads;

/// Reduces a lawful file: each accepted variant becomes the file, until a round accepts nothing, the turns reach the
/// limit, the test fails, or no memory is left.
pub fn reduce<
    R: Threads + Sync,
    P: Passes + Sync,
    L: Law + Sync,
    Q: Question + Sync,
    J: Judge + Send,
>(
    rt: &R,
    alloc: Global,
    passes: &P,
    law: &L,
    question: &Q,
    bench: &mut Bench<J>,
    name: &str,
    file: Vec<u8>,
    plan: &Plan,
) -> End
where
    P::Prep: Sync,
    requires tokenizes { (n : ℕ) × HasSize file.items n }
    requires workers { (0 < plan.now.workers) × (plan.now.workers ≤ length bench.old.judges) }
    requires window { (0 < plan.now.window) × (plan.now.window ≤ 4096) }

    // The verdicts that the bench keeps are right by this law, question and name, as they are where it keeps none.
    requires right { AreRightBy (searching P.Passes passes.now L.Law law.now Q.Question question.now name.now J.Judge bench.old) bench.old.kept }

    // The reduction by the answers that were given in this run or kept before it, whatever the judge is.
    ensures chain { EndsInRun (searching P.Passes passes.now L.Law law.now Q.Question question.now name.now J.Judge bench.old)
        (judging J.Judge bench.old) (judging J.Judge bench.new) plan.now.limit file.items result }
    ensures all_rejected { result.why ≡ Why.Fixed → IsFixedInRun (searching P.Passes passes.now L.Law law.now Q.Question question.now name.now J.Judge bench.old)
        (judging J.Judge bench.old) (judging J.Judge bench.new) result.file.items }

    // Where the answers are told, it is the one-thread first-accepted reduction.
    ensures reduction { IsAllTold (searching P.Passes passes.now L.Law law.now Q.Question question.now name.now J.Judge bench.old)
        → EndsAsTold (searching P.Passes passes.now L.Law law.now Q.Question question.now name.now J.Judge bench.old) plan.now.limit file.items result }
    ensures fixed_point { IsAllTold (searching P.Passes passes.now L.Law law.now Q.Question question.now name.now J.Judge bench.old)
        → result.why ≡ Why.Fixed → IsFixedAsTold (searching P.Passes passes.now L.Law law.now Q.Question question.now name.now J.Judge bench.old) result.file.items }

    // The test is asked about nothing but smaller, lawful variants of the chain's files.
    ensures asks_only { AsksOnlyCandidates (searching P.Passes passes.now L.Law law.now Q.Question question.now name.now J.Judge bench.old)
        file.items result.accepted.items (judging J.Judge bench.old) (judging J.Judge bench.new) }

    // It is asked no more often than the turns, and the positions behind the accepted ones in their epochs, account for; where the test
    // failed or no memory was left, one window more.
    ensures few { AsksAtMost (most_calls plan.now.window result) (judging J.Judge bench.old) (judging J.Judge bench.new) }
    ensures cause { FaultsWithCause (searching P.Passes passes.now L.Law law.now Q.Question question.now name.now J.Judge bench.old)
        (judging J.Judge bench.old) (judging J.Judge bench.new) result.why }

    // With turns enough it ends for another reason.
    ensures in_time { (levels : ℕ → ℕ) (size : ℕ) → HasLevels (P.offers passes.now) levels → HasSize file.items size → Within plan.now.limit (enough_turns levels size) → result.why ≢ Why.Limit }
    ensures keys { keys_of J.Judge bench.new ≡ keys_of J.Judge bench.old }

    // Workers that the plan doesn't ask for do nothing.
    ensures others { drop plan.now.workers bench.new.judges ≡ drop plan.now.workers bench.old.judges }

    // A question that asks no judge leaves the judges as they were.
    ensures silent { Q.asks question.now ≡ false → bench.new.judges ≡ bench.old.judges }
    ensures goes_on { GoesOn (judging J.Judge bench.old) (judging J.Judge bench.new) }

    // What it keeps then is right too: each verdict was made in this run, or was kept before it.
    ensures right { AreRightBy (searching P.Passes passes.now L.Law law.now Q.Question question.now name.now J.Judge bench.old) bench.new.kept }
    ensures made { AreMade (searching P.Passes passes.now L.Law law.now Q.Question question.now name.now J.Judge bench.old)
        (judging J.Judge bench.old) (judging J.Judge bench.new) bench.new.kept }
{
    match begin(alloc, passes, file) {
        Ok(mut walk) => {
            let mut keeper = NoKeeper;
            let why = walk_on(
                rt,
                alloc,
                passes,
                law,
                question,
                bench,
                name,
                plan,
                &mut walk,
                &mut keeper,
            );
            end_of(walk, why)
        }
        Err(file) => End {
            file,
            accepted: Vec::new(alloc),
            turns: 0,
            why: Why::NoMemory,
        },
    }
}

// The walk before its first position, or the file back where no memory is left.
fn begin<P: Passes>(alloc: Global, passes: &P, file: Vec<u8>) -> Result<Walk<P::Prep>, Vec<u8>>
    requires { (n : ℕ) × HasSize file.items n }
    ensures sound { IfOk result (IsSound (P.offers passes.now) (P.offer passes.now)) }
    ensures offered { IfOk result (λ walk. P.offers passes.now file.items (P.offer passes.now walk.prep file.items)) }
    ensures start { IfOk result (λ walk. state_of (P.offer passes.now) walk ≡ start_of file.items (P.offer passes.now walk.prep file.items)) }
    ensures back { IfErr result (λ given. given ≡ file) }
{
    let Ok(size) = size_of(alloc, &file) else {
        return Err(file);
    };
    let Ok(prep) = passes.prepare(alloc, &file) else {
        return Err(file);
    };
    let count = positions(passes, &prep);
    Ok(Walk {
        file,
        size,
        prep,
        count,
        position: 0,
        changed: false,
        accepted: Vec::new(alloc),
        turns: 0,
    })
}

/// What a walk ended with.
pub fn end_of<T: Drop>(walk: Walk<T>, why: Why) -> End
    ensures { result ≡ end_of_walk walk why }
{
    let Walk {
        file,
        size: _,
        prep: _,
        count: _,
        position: _,
        changed: _,
        accepted,
        turns,
    } = walk;
    End {
        file,
        accepted,
        turns,
        why,
    }
}
