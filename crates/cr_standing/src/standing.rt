// The reduction by the workers of a bench.
ghost use Rattle.std.specs.Prelude.{◌≡◌, ◌≢◌, ◌<◌, ◌≤◌, [], ℕ, drop, false, length};
ghost use Rattle.cr_pool.specs.Bench.{IsManned};
ghost use Rattle.cr_pool.specs.Crew.{judges_in};
ghost use Rattle.cr_pool.specs.Tally.{first_says};
ghost use Rattle.cr_reduce.specs.Bench.{GoesOn, judging, keys_of, says_of};
ghost use Rattle.cr_reduce.specs.Bound.{HasLevels, enough_turns};
ghost use Rattle.cr_reduce.specs.Ends.{EndsAsTold, FaultsWithCause, IsFixedAsTold};
ghost use Rattle.cr_reduce.specs.Reduction.{Within};
ghost use Rattle.cr_reduce.specs.Search.{IsAllTold, search_of};
ghost use Rattle.cr_reduce.specs.Sizes.{HasSize};
ghost use Rattle.cr_standing.specs.Ends.{EndsStanding};
ghost use Rattle.cr_standing_workers.specs.Told.{EndsIfTold};

use crate::running::reduce_by_judges;
use cr_cursor::{Law, Passes};
use cr_outside::{Judge, Question};
use cr_pool::{Bench, Worker};
use cr_reduce::{End, Plan, Why};
use std::alloc::Global;
use std::sync::Wait;
use std::thread::Threads;

/// Reduces a lawful file as `reduce` of `cr_reduce` does, by the workers of a bench, each in a thread that stays for the whole reduction,
/// where there are two or more and the question asks them. What the bench keeps is forgotten.
///
/// It may wait: for the judges, and for the workers. Where a thread can't be started the others do its part.
pub fn reduce_standing<
    R: Threads + Wait + Sync,
    P: Passes + Sync,
    L: Law + Sync,
    Q: Question + Sync,
    J: Judge + Send + Drop,
>(
    rt: &R,
    alloc: Global,
    passes: &P,
    law: &L,
    question: &Q,
    bench: &mut Bench<J>,
    name: &str,
    file: Vec<u8>,
    plan: &Plan,
) -> End
where
    P::Prep: Send + Sync,
    requires tokenizes { (n : ℕ) × HasSize file.items n }
    requires workers { (0 < plan.now.workers) × (plan.now.workers ≤ length bench.old.judges) }
    requires window { (0 < plan.now.window) × (plan.now.window ≤ 4096) }

    // For any judge, a chain of accepted variants: each is lawful, smaller and, where the answer about it is told, answered yes. A fault
    // is a failed test of the next position, asked of the first judge in this call.
    ensures chain { EndsIfTold (search_of (P.offers passes.now) (L.lawful law.now) (Q.asks question.now) (Q.tells question.now) (says_of J.Judge bench.old) name.now [])
        (judging J.Judge bench.old) (judging J.Judge bench.new) plan.now.limit file.items result }
    ensures first { (turn worker : ℕ) → result.why ≡ Why.Fault turn worker → worker ≡ 0 }

    // Where the answers are told, it is the one-thread first-accepted reduction.
    ensures reduction { IsAllTold (search_of (P.offers passes.now) (L.lawful law.now) (Q.asks question.now) (Q.tells question.now) (says_of J.Judge bench.old) name.now [])
        → EndsAsTold (search_of (P.offers passes.now) (L.lawful law.now) (Q.asks question.now) (Q.tells question.now) (says_of J.Judge bench.old) name.now []) plan.now.limit file.items result }
    ensures fixed_point { IsAllTold (search_of (P.offers passes.now) (L.lawful law.now) (Q.asks question.now) (Q.tells question.now) (says_of J.Judge bench.old) name.now [])
        → result.why ≡ Why.Fixed → IsFixedAsTold (search_of (P.offers passes.now) (L.lawful law.now) (Q.asks question.now) (Q.tells question.now) (says_of J.Judge bench.old) name.now []) result.file.items }
    ensures cause { FaultsWithCause (search_of (P.offers passes.now) (L.lawful law.now) (Q.asks question.now) (Q.tells question.now) (says_of J.Judge bench.old) name.now [])
        (judging J.Judge bench.old) (judging J.Judge bench.new) result.why }

    // With turns enough it ends for another reason.
    ensures in_time { (levels : ℕ → ℕ) (size : ℕ) → HasLevels (P.offers passes.now) levels → HasSize file.items size → Within plan.now.limit (enough_turns levels size) → result.why ≢ Why.Limit }

    // The judges keep their places, their keys and the order of their calls; a question that asks none leaves them as they were, and
    // so are those that the plan doesn't ask for.
    ensures keys { keys_of J.Judge bench.new ≡ keys_of J.Judge bench.old }
    ensures goes_on { GoesOn (judging J.Judge bench.old) (judging J.Judge bench.new) }
    ensures silent { Q.asks question.now ≡ false → bench.new.judges ≡ bench.old.judges }
    ensures others { drop plan.now.workers bench.new.judges ≡ drop plan.now.workers bench.old.judges }
    ensures forgot { bench.new.kept ≡ [] }
{
    bench.lend(
        alloc,
        |workers: Vec<Worker<J>>| -> (Vec<Worker<J>>, End)
            requires tokenizes { (n : ℕ) × HasSize file.items n }
            requires manned { IsManned J.key (judges_in workers.items) }
            requires workers { (0 < plan.now.workers) × (plan.now.workers ≤ length workers.items) }
            requires window { (0 < plan.now.window) × (plan.now.window ≤ 4096) }
            ensures { EndsStanding (search_of (P.offers passes.entry.now) (L.lawful law.entry.now) (Q.asks question.entry.now) (Q.tells question.entry.now) (first_says J.key J.says (judges_in workers.items)) name.entry.now [])
                J.Judge (Q.asks question.entry.now) plan.entry.now.limit plan.entry.now.workers file.items (judges_in workers.items) (judges_in result.0.items) result.1 }
        { reduce_by_judges(rt, alloc, passes, law, question, workers, name, file, plan) },
    )
}
