// The steps of a run by standing workers.
ghost use Rattle.std.specs.Prelude.{◌≡◌, ◌<◌, ◌≤◌, drop, false, length};
ghost use Rattle.cr_reduce.specs.Bench.{judging, keys_of, says_of};
ghost use Rattle.cr_main.specs.Standing.{RunsStanding};
ghost use Rattle.cr_main_task.specs.Outside.{outside};
ghost use Rattle.cr_main_task.specs.Task.{IsOfPrograms, given, task_at, task_for};

use cr_cursor::{Law, Passes};
use cr_main_task::{Asked, Asking, Task, begin, conclude, status};
use cr_outside::{Files, Judge, Question, Sink};
use cr_pool::Bench;
use cr_reduce::Plan;
use cr_standing::reduce_standing;
use std::alloc::Global;
use std::sync::Wait;
use std::thread::Threads;

/// Runs on lawful bytes: asks the test about them, and reduces them where it says yes, by workers that stay for the whole reduction.
pub fn run_standing<
    R: Threads + Wait + Sync,
    P: Passes + Sync,
    L: Law + Sync,
    A: Asking + Sync,
    F: Files,
    J: Judge + Send + Drop,
    O: Sink,
>(
    rt: &R,
    alloc: Global,
    task: &Task<'_, P, L, A>,
    bytes: Vec<u8>,
    files: &mut F,
    bench: &mut Bench<J>,
    out: &mut O,
) -> u8
where
    P::Prep: Send + Sync,
    A::Bound: Sync,
    requires law { IsOfPrograms (L.lawful task.now.law.now) (L.reasons task.now.law.now) }
    requires workers { (0 < task.now.workers) × (task.now.workers ≤ length bench.old.judges) }
    requires window { (0 < task.now.window) × (task.now.window ≤ 4096) }
    requires lawful { L.lawful task.now.law.now bytes.items }
    requires binds { A.binds task.now.asking.now bytes.items }
    ensures runs { RunsStanding (task_at P.Passes L.Law A.Asking task.now (says_of J.Judge bench.old) bytes.items) (given bytes.items)
        (outside F.Outside F.Files.own files.old O.Sink out.old) (outside F.Outside F.Files.own files.new O.Sink out.new)
        (judging J.Judge bench.old) (judging J.Judge bench.new) result }
    // Workers that the task doesn't ask for do nothing.
    ensures others { drop task.now.workers bench.new.judges ≡ drop task.now.workers bench.old.judges }
    ensures silent { A.asks task.now.asking.now ≡ false → bench.new.judges ≡ bench.old.judges }
    ensures keys { keys_of J.Judge bench.new ≡ keys_of J.Judge bench.old }
{
    let question = match Asked::bind(alloc, task.asking, &bytes) {
        Ok(question) => question,
        Err(_) => return status::NO_MEMORY,
    };
    run_bound(rt, alloc, task, &question, bytes, files, bench, out)
}

// Runs on lawful bytes by the question that was made from them.
fn run_bound<
    R: Threads + Wait + Sync,
    P: Passes + Sync,
    L: Law + Sync,
    A,
    Q: Question + Sync,
    F: Files,
    J: Judge + Send + Drop,
    O: Sink,
>(
    rt: &R,
    alloc: Global,
    task: &Task<'_, P, L, A>,
    question: &Q,
    bytes: Vec<u8>,
    files: &mut F,
    bench: &mut Bench<J>,
    out: &mut O,
) -> u8
where
    P::Prep: Send + Sync,
    requires law { IsOfPrograms (L.lawful task.now.law.now) (L.reasons task.now.law.now) }
    requires workers { (0 < task.now.workers) × (task.now.workers ≤ length bench.old.judges) }
    requires window { (0 < task.now.window) × (task.now.window ≤ 4096) }
    requires lawful { L.lawful task.now.law.now bytes.items }
    ensures runs { RunsStanding (task_for P.Passes L.Law Q.Question task.now question.now (says_of J.Judge bench.old)) (given bytes.items)
        (outside F.Outside F.Files.own files.old O.Sink out.old) (outside F.Outside F.Files.own files.new O.Sink out.new)
        (judging J.Judge bench.old) (judging J.Judge bench.new) result }
    ensures others { drop task.now.workers bench.new.judges ≡ drop task.now.workers bench.old.judges }
    ensures silent { Q.asks question.now ≡ false → bench.new.judges ≡ bench.old.judges }
    ensures keys { keys_of J.Judge bench.new ≡ keys_of J.Judge bench.old }
{
    let old_size = match begin(alloc, task, question, &bytes, files, bench, out) {
        Ok(old_size) => old_size,
        Err(status) => return status,
    };
    let plan = Plan {
        workers: task.workers,
        window: task.window,
        limit: task.limit,
    };
    let end = reduce_standing(
        rt,
        alloc,
        task.passes,
        task.law,
        question,
        bench,
        task.own,
        bytes,
        &plan,
    );
    conclude(alloc, task, &end, old_size, files, out)
}
