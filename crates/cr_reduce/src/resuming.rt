// The reduction, from where it stood, each acceptance told to a keeper.
ghost use Rattle.std.specs.Prelude.{◌≡◌, ◌≢◌, ◌<◌, ◌≤◌, ◌^◌, ℕ, drop, length, IfErr, IfOk, false};
ghost use Rattle.cr_reduce.specs.Bench.{GoesOn, judging, keys_of};
ghost use Rattle.cr_reduce.specs.Ends.{FaultsWithCause, IsFixedAsTold, IsFixedInRun};
ghost use Rattle.cr_reduce.specs.Keeping.{AsksFewOn, AsksOnlyBehind, BeginsFirst, EndsOnAsTold, EndsOnInRun, end_as_kept, goes_on_at};
ghost use Rattle.cr_reduce.specs.Reduction.{Within};
ghost use Rattle.cr_reduce.specs.Search.{AreMade, AreRightBy, IsAllTold, searching};
ghost use Rattle.cr_reduce.specs.Sizes.{HasSize};
ghost use Rattle.cr_reduce.specs.Walk.{IsSound, state_of};
ghost use Rattle.cr_cursor.specs.Variants.{pass_count};

use crate::advance::walk_on;
use crate::end::{End, Kept, Plan, Why};
use crate::greedy::end_of;
use crate::keeper::Keeper;
use crate::measure::size_of;
use crate::walk::Walk;
use cr_cursor::{Law, Passes, position_of, positions};
use cr_outside::{Judge, Question};
use cr_pool::Bench;
use std::alloc::Global;
use std::thread::Threads;

/// Goes on with a reduction behind the rows that it accepted before, and has each further one kept before it goes on. Where
/// the keeper couldn't keep a row it ends as for want of memory.
pub fn resume<
    R: Threads + Sync,
    P: Passes + Sync,
    L: Law + Sync,
    Q: Question + Sync,
    J: Judge + Send,
    K: Keeper,
>(
    rt: &R,
    alloc: Global,
    passes: &P,
    law: &L,
    question: &Q,
    bench: &mut Bench<J>,
    name: &str,
    kept: Kept,
    plan: &Plan,
    keeper: &mut K,
) -> End
where
    P::Prep: Sync,
    requires tokenizes { (n : ℕ) × HasSize kept.file.items n }
    requires pass { kept.at.pass < pass_count }
    requires level { kept.at.level < 16 }
    requires turns { kept.turns < 2 ^ 63 }
    requires within { Within plan.now.limit kept.turns }
    requires workers { (0 < plan.now.workers) × (plan.now.workers ≤ length bench.old.judges) }
    requires window { (0 < plan.now.window) × (plan.now.window ≤ 4096) }

    // The verdicts that the bench keeps are right by this law, question and name, as they are where it keeps none.
    requires right { AreRightBy (searching P.Passes passes.now L.Law law.now Q.Question question.now name.now J.Judge bench.old) bench.old.kept }
    requires keeps { K.keeps keeper.old kept.accepted.items }

    // The reduction from there on, by the answers that were given in this run or kept before it, whatever the judge is.
    ensures chain { EndsOnInRun (searching P.Passes passes.now L.Law law.now Q.Question question.now name.now J.Judge bench.old)
        (judging J.Judge bench.old) (judging J.Judge bench.new) plan.now.limit kept result }
    ensures all_rejected { BeginsFirst kept → result.why ≡ Why.Fixed → IsFixedInRun (searching P.Passes passes.now L.Law law.now Q.Question question.now name.now J.Judge bench.old)
        (judging J.Judge bench.old) (judging J.Judge bench.new) result.file.items }

    // Where the answers are told, it is the one-thread first-accepted reduction from there on.
    ensures reduction { IsAllTold (searching P.Passes passes.now L.Law law.now Q.Question question.now name.now J.Judge bench.old)
        → EndsOnAsTold (searching P.Passes passes.now L.Law law.now Q.Question question.now name.now J.Judge bench.old) plan.now.limit kept result }
    ensures fixed_point { BeginsFirst kept → IsAllTold (searching P.Passes passes.now L.Law law.now Q.Question question.now name.now J.Judge bench.old)
        → result.why ≡ Why.Fixed → IsFixedAsTold (searching P.Passes passes.now L.Law law.now Q.Question question.now name.now J.Judge bench.old) result.file.items }

    // The test is asked about nothing but smaller, lawful variants of the kept file and of those accepted behind it.
    ensures asks_only { AsksOnlyBehind (searching P.Passes passes.now L.Law law.now Q.Question question.now name.now J.Judge bench.old)
        kept result (judging J.Judge bench.old) (judging J.Judge bench.new) }
    ensures few { AsksFewOn plan.now.window (judging J.Judge bench.old) (judging J.Judge bench.new) kept result }
    ensures cause { FaultsWithCause (searching P.Passes passes.now L.Law law.now Q.Question question.now name.now J.Judge bench.old)
        (judging J.Judge bench.old) (judging J.Judge bench.new) result.why }

    // The keeper has kept all rows, but where it ended for want of memory; and at each moment it had kept a front of them.
    ensures keeps { result.why ≢ Why.NoMemory → K.keeps keeper.new result.accepted.items }
    ensures kept_on { K.kept_on keeper.old keeper.new result.accepted.items }
    ensures held { K.held keeper.new ≡ K.held keeper.old }
    ensures keys { keys_of J.Judge bench.new ≡ keys_of J.Judge bench.old }

    // Workers that the plan doesn't ask for do nothing.
    ensures others { drop plan.now.workers bench.new.judges ≡ drop plan.now.workers bench.old.judges }

    // A question that asks no judge leaves the judges as they were.
    ensures silent { Q.asks question.now ≡ false → bench.new.judges ≡ bench.old.judges }
    ensures goes_on { GoesOn (judging J.Judge bench.old) (judging J.Judge bench.new) }

    // What the bench keeps then is right too: each verdict was made in this run, or was kept before it.
    ensures right { AreRightBy (searching P.Passes passes.now L.Law law.now Q.Question question.now name.now J.Judge bench.old) bench.new.kept }
    ensures made { AreMade (searching P.Passes passes.now L.Law law.now Q.Question question.now name.now J.Judge bench.old)
        (judging J.Judge bench.old) (judging J.Judge bench.new) bench.new.kept }
{
    match begin_at(alloc, passes, kept) {
        Ok(mut walk) => {
            let why = walk_on(
                rt, alloc, passes, law, question, bench, name, plan, &mut walk, keeper,
            );
            end_of(walk, why)
        }
        Err(kept) => not_gone_on(kept),
    }
}

fn not_gone_on(kept: Kept) -> End
    ensures { result ≡ end_as_kept kept }
{
    let Kept {
        file,
        at: _,
        accepted,
        turns,
    } = kept;
    End {
        file,
        accepted,
        turns,
        why: Why::NoMemory,
    }
}

// The walk behind the rows that were accepted, or all of it back where no memory is left.
fn begin_at<P: Passes>(alloc: Global, passes: &P, kept: Kept) -> Result<Walk<P::Prep>, Kept>
    requires tokenizes { (n : ℕ) × HasSize kept.file.items n }
    requires pass { kept.at.pass < pass_count }
    requires level { kept.at.level < 16 }
    requires turns { kept.turns < 2 ^ 63 }
    ensures sound { IfOk result (IsSound (P.offers passes.now) (P.offer passes.now)) }
    ensures offered { IfOk result (λ walk. P.offers passes.now kept.file.items (P.offer passes.now walk.prep kept.file.items)) }
    ensures start { IfOk result (λ walk. state_of (P.offer passes.now) walk ≡ goes_on_at kept (P.offer passes.now walk.prep kept.file.items)) }
    ensures back { IfErr result (λ given. given ≡ kept) }
{
    let Ok(size) = size_of(alloc, &kept.file) else {
        return Err(kept);
    };
    let Ok(prep) = passes.prepare(alloc, &kept.file) else {
        return Err(kept);
    };
    let count = positions(passes, &prep);
    let position = position_of(passes, &prep, kept.at);
    let changed = !kept.accepted.is_empty();
    let Kept {
        file,
        at: _,
        accepted,
        turns,
    } = kept;
    Ok(Walk {
        file,
        size,
        prep,
        count,
        position,
        changed,
        accepted,
        turns,
    })
}
