// A reduction that goes on, each acceptance in the journal before the next.
ghost use Rattle.std.specs.Prelude.{◌≡◌, ◌<◌, ◌≤◌, ◌+◌, ◌*◌, ◌^◌, ℕ, List, drop, length, true, false};
ghost use Rattle.cr_journal_records.specs.Records.{AtRest, Body, IsKept, Stands};
ghost use Rattle.cr_journal.specs.Keeping.{AtEnd, IsReductionOn, OfEnd, Rests, journal_of};
ghost use Rattle.cr_outside.specs.Faults.{Rose};
ghost use Rattle.cr_outside_disk.specs.Moments.{AlwaysTold, EveryTold, LastsTold};
ghost use Rattle.cr_reduce.specs.Bench.{GoesOn, judging, keys_of};
ghost use Rattle.cr_reduce.specs.Keeping.{ReducesOnAsTold};
ghost use Rattle.cr_reduce.specs.Reduction.{Outcome, Within};
ghost use Rattle.cr_reduce.specs.Search.{AreMade, AreRightBy, IsAllTold, searching};
ghost use Rattle.cr_reduce.specs.Sizes.{HasSize};
ghost use Rattle.cr_cursor.specs.Variants.{pass_count};

use crate::keeper::DiskKeeper;
use cr_cursor::{Law, Passes};
use cr_outside::{Judge, Question};
use cr_outside_disk::Disk;
use cr_pool::Bench;
use cr_reduce::laws::a_reduction_cut_short_accepts_a_front;
use cr_reduce::{End, Kept, Plan, resume};
use std::alloc::Global;
use std::thread::Threads;

/// What comes of a reduction that is kept.
#[derive(Debug, Drop)]
pub enum KeptEnd {
    Done(End),
    /// The call on the disk made last failed. What was kept before can be gone on with.
    Disk,
}

/// Goes on with a reduction behind the rows of a journal, and adds the row of each acceptance to it before it goes on.
pub fn reduce_kept<
    R: Threads + Sync,
    P: Passes + Sync,
    L: Law + Sync,
    Q: Question + Sync,
    J: Judge + Send,
    D: Disk,
>(
    rt: &R,
    alloc: Global,
    passes: &P,
    law: &L,
    question: &Q,
    bench: &mut Bench<J>,
    disk: &mut D,
    name: &str,
    kept: Kept,
    plan: &Plan,
) -> KeptEnd
where
    P::Prep: Sync,
    requires tokenizes { (n : ℕ) × HasSize kept.file.items n }
    requires pass { kept.at.pass < pass_count }
    requires level { kept.at.level < 16 }
    requires turns { kept.turns < 2 ^ 63 }
    requires within { Within plan.now.limit kept.turns }
    requires workers { (0 < plan.now.workers) × (plan.now.workers ≤ length bench.old.judges) }
    requires window { (0 < plan.now.window) × (plan.now.window ≤ 4096) }
    requires right { AreRightBy (searching P.Passes passes.now L.Law law.now Q.Question question.now name.now J.Judge bench.old) bench.old.kept }
    requires ready { D.is_ready disk.old ≡ true }
    requires long { 32 * length kept.accepted.items + 33 ≤ D.size disk.old }
    requires rests { Rests kept.accepted.items (D.story disk.old) }
    ensures goes_on { OfEnd (IsReductionOn (searching P.Passes passes.now L.Law law.now Q.Question question.now name.now J.Judge bench.old)
        (judging J.Judge bench.old) (judging J.Judge bench.new) plan.now.window plan.now.limit kept) result }

    // A stop at any moment of the call leaves the header and a front of what is accepted,
    ensures front { OfEnd (λ e. (header : Body) → EveryTold (AtRest (journal_of header kept.accepted.items)) (D.story disk.old)
        → AlwaysTold (IsKept (journal_of header e.accepted.items)) (D.story disk.old) (D.story disk.new)) result }

    // and so, where the answers are told, of what the whole reduction accepts.
    ensures any_moment { IsAllTold (searching P.Passes passes.now L.Law law.now Q.Question question.now name.now J.Judge bench.old)
        → (out : Outcome) → ReducesOnAsTold (searching P.Passes passes.now L.Law law.now Q.Question question.now name.now J.Judge bench.old) kept plan.now.limit out
        → (header : Body) → EveryTold (AtRest (journal_of header kept.accepted.items)) (D.story disk.old)
        → AlwaysTold (IsKept (journal_of header out.accepted)) (D.story disk.old) (D.story disk.new) }

    // What stands at one moment of the call stands at each later one.
    ensures lasts { (some : List Body) → LastsTold (Stands some) (D.story disk.old) (D.story disk.new) }

    // At the end the header and all rows stand in every image.
    ensures rests { AtEnd (λ e. (header : Body) → EveryTold (AtRest (journal_of header kept.accepted.items)) (D.story disk.old)
        → EveryTold (AtRest (journal_of header e.accepted.items)) (D.story disk.new)) result }
    ensures ready { AtEnd (λ _. D.is_ready disk.new ≡ true) result }
    ensures later { D.faults disk.old ≤ D.faults disk.new }
    ensures failed { result ≡ KeptEnd.Disk → Rose (D.faults disk.old) (D.faults disk.new) × (D.has_failed disk.new ≡ true) }
    ensures keys { keys_of J.Judge bench.new ≡ keys_of J.Judge bench.old }
    ensures others { drop plan.now.workers bench.new.judges ≡ drop plan.now.workers bench.old.judges }
    ensures silent { Q.asks question.now ≡ false → bench.new.judges ≡ bench.old.judges }
    ensures later_calls { GoesOn (judging J.Judge bench.old) (judging J.Judge bench.new) }
    ensures right_after { AreRightBy (searching P.Passes passes.now L.Law law.now Q.Question question.now name.now J.Judge bench.old) bench.new.kept }
    ensures made { AreMade (searching P.Passes passes.now L.Law law.now Q.Question question.now name.now J.Judge bench.old)
        (judging J.Judge bench.old) (judging J.Judge bench.new) bench.new.kept }
{
    let mut keeper = DiskKeeper {
        disk,
        has_failed: false,
    };
    let end = resume(
        rt,
        alloc,
        passes,
        law,
        question,
        bench,
        name,
        kept,
        plan,
        &mut keeper,
    );
    // Where it was cut short, what it accepted comes first in what the whole reduction accepts.
    a_reduction_cut_short_accepts_a_front(passes, law, question);
    if keeper.has_failed {
        return KeptEnd::Disk;
    }
    KeptEnd::Done(end)
}
