// A reduction behind the words: its law, its task, its engine.
ghost use Rattle.std.specs.Prelude.{◌≡◌, ℕ, List, None, Some, drop, false, length};
ghost use Rattle.cr_main.specs.Said.{IsLawful, IsOfPrograms, IsOwnName, IsRunnable, IsTaskOf, RunsIn, RunsPlain, RunsTask, Suits, asked_by, asks_test, files_told, judging, keys_of, law_by, limits_of, marks_of, name_of, outside, ruled_by, says_of, task_of, text_of};

use crate::engines::{run_by_epochs, run_by_standing};
use crate::names::own_name;
use crate::source::{is_saved, source_name};
use cr_cursor::Law;
use cr_lawful::CLaw;
use cr_lawful_analysis::LastRead;
use cr_main_kept::{Marks, passes_mark, run_journal, run_resume};
use cr_main_task::{Asking, Task, Unbound};
use cr_main_words::{Engine, Modes, Settings};
use cr_order::OrderLaw;
use cr_outside::{Files, Judge, Sink};
use cr_outside_disk::Disk;
use cr_pool::Bench;
use cr_reached::ReachedLaw;
use pass_list::CPasses;
use std::alloc::Global;
use std::sync::Wait;
use std::thread::Threads;

/// Runs the reducer as these settings ask, without flag, and by their test.
pub fn run_given<R: Threads + Sync, F: Files, J: Judge + Send, O: Sink>(
    rt: &R,
    alloc: Global,
    settings: &Settings,
    files: &mut F,
    bench: &mut Bench<J>,
    out: &mut O,
) -> u8
    requires runnable { IsRunnable (length bench.old.judges) settings.now }
    ensures runs { (own : List ℕ) × IsOwnName (name_of settings.now.source) own
        × RunsTask (task_of settings.now (says_of J.Judge bench.old) own) (text_of settings.now.source (files_told (F.story files.old)))
        (outside F.Outside F.Files.own files.old O.Sink out.old) (outside F.Outside F.Files.own files.new O.Sink out.new)
        (judging J.Judge bench.old) (judging J.Judge bench.new) result }
    ensures others { drop settings.now.workers bench.new.judges ≡ drop settings.now.workers bench.old.judges }
    ensures silent { asks_test settings.now.test ≡ false → bench.new.judges ≡ bench.old.judges }
    ensures keys { keys_of J.Judge bench.new ≡ keys_of J.Judge bench.old }
{
    let last = LastRead::new();
    let law = CLaw::with_steps(settings.steps, Some(&last));
    let passes = CPasses {
        enabled: settings.enabled,
        last: Some(&last),
    };
    let asking = Unbound {
        question: &settings.test,
    };
    run_plain(
        rt, alloc, settings, &passes, &law, &asking, files, bench, out,
    )
}

// Runs the reducer by epochs of workers, by a law and by what is asked.
fn run_plain<
    R: Threads + Sync,
    L: Law + Sync,
    A: Asking + Sync,
    F: Files,
    J: Judge + Send,
    O: Sink,
>(
    rt: &R,
    alloc: Global,
    settings: &Settings,
    passes: &CPasses<'_>,
    law: &L,
    asking: &A,
    files: &mut F,
    bench: &mut Bench<J>,
    out: &mut O,
) -> u8
where
    A::Bound: Sync,
    requires runnable { IsRunnable (length bench.old.judges) settings.now }
    requires passes { passes.now.enabled ≡ settings.now.enabled }
    requires law { IsOfPrograms (L.lawful law.now) (L.reasons law.now) }
    requires binds { (bytes : List ℕ) → L.lawful law.now bytes → A.binds asking.now bytes }
    ensures runs { (own : List ℕ) × IsOwnName (name_of settings.now.source) own
        × RunsPlain (asked_by (record { Lawful = L.lawful law.now; Against = L.reasons law.now }) (A.asks asking.now) (λ bytes. A.tells (A.key asking.now bytes))
        settings.now (says_of J.Judge bench.old) own) settings.now.source
        (outside F.Outside F.Files.own files.old O.Sink out.old) (outside F.Outside F.Files.own files.new O.Sink out.new)
        (judging J.Judge bench.old) (judging J.Judge bench.new) result }
    ensures others { drop settings.now.workers bench.new.judges ≡ drop settings.now.workers bench.old.judges }
    ensures silent { A.asks asking.now ≡ false → bench.new.judges ≡ bench.old.judges }
    ensures keys { keys_of J.Judge bench.new ≡ keys_of J.Judge bench.old }
{
    let task = task_by(settings, passes, law, asking);
    run_by_epochs(rt, alloc, &task, &settings.source, files, bench, out)
}

/// Runs the reducer as these settings ask, in these modes, within the limits of a law: with a label, by that of programs whose runs reach
/// it; with the flag on orders, by that of programs that run alike in any order.
pub fn run_in_modes<
    R: Threads + Wait + Sync,
    A: Asking + Sync,
    W: Files + Disk,
    J: Judge + Send + Drop,
    O: Sink,
>(
    rt: &R,
    alloc: Global,
    settings: &Settings,
    modes: &Modes,
    law: &CLaw<'_>,
    asking: &A,
    world: &mut W,
    bench: &mut Bench<J>,
    out: &mut O,
) -> u8
where
    A::Bound: Sync,
    requires runnable { IsRunnable (length bench.old.judges) settings.now }
    requires suits { Suits modes.now.engine settings.now.source }
    requires limits { law.now.limits ≡ limits_of settings.now.steps }
    requires binds { (bytes : List ℕ) → IsLawful (limits_of settings.now.steps) bytes → A.binds asking.now bytes }
    ensures runs { (own : List ℕ) × IsOwnName (name_of settings.now.source) own
        × RunsIn modes.now.engine (asked_by (law_by modes.now (limits_of settings.now.steps)) (A.asks asking.now) (λ bytes. A.tells (A.key asking.now bytes)) settings.now (says_of J.Judge bench.old) own)
        (marks_of settings.now) settings.now.source
        (outside W.Outside W.Files.own world.old O.Sink out.old) (outside W.Outside W.Files.own world.new O.Sink out.new)
        (judging J.Judge bench.old) (judging J.Judge bench.new) (W.Disk.has_failed world.new) result }
    ensures others { drop settings.now.workers bench.new.judges ≡ drop settings.now.workers bench.old.judges }
    ensures silent { A.asks asking.now ≡ false → bench.new.judges ≡ bench.old.judges }
    ensures keys { keys_of J.Judge bench.new ≡ keys_of J.Judge bench.old }
{
    let engine = modes.engine;
    let any_order = modes.any_order;
    match &modes.reached {
        Some(name) => run_reaching(
            rt,
            alloc,
            settings,
            engine,
            any_order,
            name.as_slice(),
            law,
            asking,
            world,
            bench,
            out,
        ),
        None => run_by_order(
            rt, alloc, settings, engine, any_order, law, asking, world, bench, out,
        ),
    }
}

// By the law of programs, or of those that run alike in any order.
fn run_by_order<
    R: Threads + Wait + Sync,
    A: Asking + Sync,
    W: Files + Disk,
    J: Judge + Send + Drop,
    O: Sink,
>(
    rt: &R,
    alloc: Global,
    settings: &Settings,
    engine: Engine,
    any_order: bool,
    law: &CLaw<'_>,
    asking: &A,
    world: &mut W,
    bench: &mut Bench<J>,
    out: &mut O,
) -> u8
where
    A::Bound: Sync,
    requires runnable { IsRunnable (length bench.old.judges) settings.now }
    requires suits { Suits engine settings.now.source }
    requires limits { law.now.limits ≡ limits_of settings.now.steps }
    requires binds { (bytes : List ℕ) → IsLawful (limits_of settings.now.steps) bytes → A.binds asking.now bytes }
    ensures runs { (own : List ℕ) × IsOwnName (name_of settings.now.source) own
        × RunsIn engine (asked_by (ruled_by None any_order (limits_of settings.now.steps)) (A.asks asking.now) (λ bytes. A.tells (A.key asking.now bytes)) settings.now (says_of J.Judge bench.old) own)
        (marks_of settings.now) settings.now.source
        (outside W.Outside W.Files.own world.old O.Sink out.old) (outside W.Outside W.Files.own world.new O.Sink out.new)
        (judging J.Judge bench.old) (judging J.Judge bench.new) (W.Disk.has_failed world.new) result }
    ensures others { drop settings.now.workers bench.new.judges ≡ drop settings.now.workers bench.old.judges }
    ensures silent { A.asks asking.now ≡ false → bench.new.judges ≡ bench.old.judges }
    ensures keys { keys_of J.Judge bench.new ≡ keys_of J.Judge bench.old }
{
    let last = law.last;
    let passes = CPasses {
        enabled: settings.enabled,
        last,
    };
    if any_order {
        let law = OrderLaw::beside(law);
        run_by_law(
            rt, alloc, settings, engine, &passes, &law, asking, world, bench, out,
        )
    } else {
        run_by_law(
            rt, alloc, settings, engine, &passes, law, asking, world, bench, out,
        )
    }
}

// By the law of programs whose runs reach a label.
fn run_reaching<
    R: Threads + Wait + Sync,
    A: Asking + Sync,
    W: Files + Disk,
    J: Judge + Send + Drop,
    O: Sink,
>(
    rt: &R,
    alloc: Global,
    settings: &Settings,
    engine: Engine,
    any_order: bool,
    name: &[u8],
    law: &CLaw<'_>,
    asking: &A,
    world: &mut W,
    bench: &mut Bench<J>,
    out: &mut O,
) -> u8
where
    A::Bound: Sync,
    requires runnable { IsRunnable (length bench.old.judges) settings.now }
    requires suits { Suits engine settings.now.source }
    requires limits { law.now.limits ≡ limits_of settings.now.steps }
    requires binds { (bytes : List ℕ) → IsLawful (limits_of settings.now.steps) bytes → A.binds asking.now bytes }
    ensures runs { (own : List ℕ) × IsOwnName (name_of settings.now.source) own
        × RunsIn engine (asked_by (ruled_by (Some name.now) any_order (limits_of settings.now.steps)) (A.asks asking.now) (λ bytes. A.tells (A.key asking.now bytes)) settings.now (says_of J.Judge bench.old) own)
        (marks_of settings.now) settings.now.source
        (outside W.Outside W.Files.own world.old O.Sink out.old) (outside W.Outside W.Files.own world.new O.Sink out.new)
        (judging J.Judge bench.old) (judging J.Judge bench.new) (W.Disk.has_failed world.new) result }
    ensures others { drop settings.now.workers bench.new.judges ≡ drop settings.now.workers bench.old.judges }
    ensures silent { A.asks asking.now ≡ false → bench.new.judges ≡ bench.old.judges }
    ensures keys { keys_of J.Judge bench.new ≡ keys_of J.Judge bench.old }
{
    let last = law.last;
    let passes = CPasses {
        enabled: settings.enabled,
        last,
    };
    let law = ReachedLaw::beside(law, name, any_order);
    run_by_law(
        rt, alloc, settings, engine, &passes, &law, asking, world, bench, out,
    )
}

// Runs the reducer by an engine, by a law and by what is asked.
fn run_by_law<
    R: Threads + Wait + Sync,
    L: Law + Sync,
    A: Asking + Sync,
    W: Files + Disk,
    J: Judge + Send + Drop,
    O: Sink,
>(
    rt: &R,
    alloc: Global,
    settings: &Settings,
    engine: Engine,
    passes: &CPasses<'_>,
    law: &L,
    asking: &A,
    world: &mut W,
    bench: &mut Bench<J>,
    out: &mut O,
) -> u8
where
    A::Bound: Sync,
    requires runnable { IsRunnable (length bench.old.judges) settings.now }
    requires suits { Suits engine settings.now.source }
    requires passes { passes.now.enabled ≡ settings.now.enabled }
    requires law { IsOfPrograms (L.lawful law.now) (L.reasons law.now) }
    requires binds { (bytes : List ℕ) → L.lawful law.now bytes → A.binds asking.now bytes }
    ensures runs { (own : List ℕ) × IsOwnName (name_of settings.now.source) own
        × RunsIn engine (asked_by (record { Lawful = L.lawful law.now; Against = L.reasons law.now }) (A.asks asking.now) (λ bytes. A.tells (A.key asking.now bytes))
        settings.now (says_of J.Judge bench.old) own) (marks_of settings.now) settings.now.source
        (outside W.Outside W.Files.own world.old O.Sink out.old) (outside W.Outside W.Files.own world.new O.Sink out.new)
        (judging J.Judge bench.old) (judging J.Judge bench.new) (W.Disk.has_failed world.new) result }
    ensures others { drop settings.now.workers bench.new.judges ≡ drop settings.now.workers bench.old.judges }
    ensures silent { A.asks asking.now ≡ false → bench.new.judges ≡ bench.old.judges }
    ensures keys { keys_of J.Judge bench.new ≡ keys_of J.Judge bench.old }
{
    let task = task_by(settings, passes, law, asking);
    run_by_engine(rt, alloc, settings, engine, &task, world, bench, out)
}

// Runs a task of settings by an engine.
fn run_by_engine<
    R: Threads + Wait + Sync,
    L: Law + Sync,
    A: Asking + Sync,
    W: Files + Disk,
    J: Judge + Send + Drop,
    O: Sink,
>(
    rt: &R,
    alloc: Global,
    settings: &Settings,
    engine: Engine,
    task: &Task<'_, CPasses<'_>, L, A>,
    world: &mut W,
    bench: &mut Bench<J>,
    out: &mut O,
) -> u8
where
    A::Bound: Sync,
    requires runnable { IsRunnable (length bench.old.judges) settings.now }
    requires suits { Suits engine settings.now.source }
    requires task { IsTaskOf settings.now task.now }
    requires law { IsOfPrograms (L.lawful task.now.law.now) (L.reasons task.now.law.now) }
    requires binds { (bytes : List ℕ) → L.lawful task.now.law.now bytes → A.binds task.now.asking.now bytes }
    ensures runs { RunsIn engine (asked_by (record { Lawful = L.lawful task.now.law.now; Against = L.reasons task.now.law.now }) (A.asks task.now.asking.now)
        (λ bytes. A.tells (A.key task.now.asking.now bytes)) settings.now (says_of J.Judge bench.old) task.now.own.now)
        (marks_of settings.now) settings.now.source
        (outside W.Outside W.Files.own world.old O.Sink out.old) (outside W.Outside W.Files.own world.new O.Sink out.new)
        (judging J.Judge bench.old) (judging J.Judge bench.new) (W.Disk.has_failed world.new) result }
    ensures others { drop settings.now.workers bench.new.judges ≡ drop settings.now.workers bench.old.judges }
    ensures silent { A.asks task.now.asking.now ≡ false → bench.new.judges ≡ bench.old.judges }
    ensures keys { keys_of J.Judge bench.new ≡ keys_of J.Judge bench.old }
{
    let source = &settings.source;
    match engine {
        Engine::Plain => run_by_epochs(rt, alloc, task, source, world, bench, out),
        Engine::Standing => run_by_standing(rt, alloc, task, source, world, bench, out),
        Engine::Journal => run_journal(rt, alloc, task, marks(settings), world, bench, out),
        Engine::Resume => run_resume(rt, alloc, task, marks(settings), world, bench, out),
    }
}

// What the header of a journal has of settings, beside the limit.
fn marks(settings: &Settings) -> Marks
    ensures { result ≡ marks_of settings.now }
{
    Marks {
        passes: passes_mark(settings.enabled),
        steps: settings.steps,
    }
}

// The task of settings by a law and by what is asked.
fn task_by<'a, L, A>(
    settings: &'a Settings,
    passes: &'a CPasses<'a>,
    law: &'a L,
    asking: &'a A,
) -> Task<'a, CPasses<'a>, L, A>
    requires { passes.now.enabled ≡ settings.now.enabled }
    ensures task { IsTaskOf settings.entry.now result }
    ensures own { IsOwnName (name_of settings.entry.now.source) result.own.now }
    ensures law { result.law.now ≡ law.entry.now }
    ensures asking { result.asking.now ≡ asking.entry.now }
{
    let name = source_name(&settings.source);
    Task {
        passes,
        law,
        asking,
        workers: settings.workers,
        window: settings.window,
        limit: settings.limit,
        name,
        own: own_name(name),
        saves: is_saved(&settings.source),
    }
}
