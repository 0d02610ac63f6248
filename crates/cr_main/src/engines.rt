// A task is run on what words name, by the engines that keep nothing.
ghost use Rattle.std.specs.Prelude.{◌≡◌, ◌<◌, ◌≤◌, ℕ, List, drop, false, length};
ghost use Rattle.cr_main.specs.Said.{IsMakeable, IsOfPrograms, RunsBound, by_epochs, by_standing, files_told, judging, keys_of, name_of, outside, says_of, task_at, text_of};

use crate::source::open_source;
use crate::standing::run_standing;
use cr_cursor::{Law, Passes};
use cr_main_task::{Asking, Task, run_lawful};
use cr_main_words::Source;
use cr_outside::{Files, Judge, Sink};
use cr_pool::Bench;
use std::alloc::Global;
use std::sync::Wait;
use std::thread::Threads;

/// Runs a task by epochs of workers.
pub fn run_by_epochs<
    R: Threads + Sync,
    P: Passes + Sync,
    L: Law + Sync,
    A: Asking + Sync,
    F: Files,
    J: Judge + Send,
    O: Sink,
>(
    rt: &R,
    alloc: Global,
    task: &Task<'_, P, L, A>,
    source: &Source,
    files: &mut F,
    bench: &mut Bench<J>,
    out: &mut O,
) -> u8
where
    P::Prep: Sync,
    A::Bound: Sync,
    requires law { IsOfPrograms (L.lawful task.now.law.now) (L.reasons task.now.law.now) }
    requires workers { (0 < task.now.workers) × (task.now.workers ≤ length bench.old.judges) }
    requires window { (0 < task.now.window) × (task.now.window ≤ 4096) }
    requires makeable { IsMakeable source.now }
    requires binds { (bytes : List ℕ) → L.lawful task.now.law.now bytes → A.binds task.now.asking.now bytes }
    ensures runs { RunsBound (record { Lawful = L.lawful task.now.law.now; Against = L.reasons task.now.law.now }) (task_at P.Passes L.Law A.Asking task.now (says_of J.Judge bench.old))
        (λ bytes. by_epochs (task_at P.Passes L.Law A.Asking task.now (says_of J.Judge bench.old) bytes)) (name_of source.now) (text_of source.now (files_told (F.story files.old)))
        (outside F.Outside F.Files.own files.old O.Sink out.old) (outside F.Outside F.Files.own files.new O.Sink out.new)
        (judging J.Judge bench.old) (judging J.Judge bench.new) result }
    ensures others { drop task.now.workers bench.new.judges ≡ drop task.now.workers bench.old.judges }
    ensures silent { A.asks task.now.asking.now ≡ false → bench.new.judges ≡ bench.old.judges }
    ensures keys { keys_of J.Judge bench.new ≡ keys_of J.Judge bench.old }
{
    match open_source(alloc, task.law, source, files, out) {
        Ok(bytes) => run_lawful(rt, alloc, task, bytes, files, bench, out),
        Err(status) => status,
    }
}

/// Runs a task by workers that stay for the whole reduction.
pub fn run_by_standing<
    R: Threads + Wait + Sync,
    P: Passes + Sync,
    L: Law + Sync,
    A: Asking + Sync,
    F: Files,
    J: Judge + Send + Drop,
    O: Sink,
>(
    rt: &R,
    alloc: Global,
    task: &Task<'_, P, L, A>,
    source: &Source,
    files: &mut F,
    bench: &mut Bench<J>,
    out: &mut O,
) -> u8
where
    P::Prep: Send + Sync,
    A::Bound: Sync,
    requires law { IsOfPrograms (L.lawful task.now.law.now) (L.reasons task.now.law.now) }
    requires workers { (0 < task.now.workers) × (task.now.workers ≤ length bench.old.judges) }
    requires window { (0 < task.now.window) × (task.now.window ≤ 4096) }
    requires makeable { IsMakeable source.now }
    requires binds { (bytes : List ℕ) → L.lawful task.now.law.now bytes → A.binds task.now.asking.now bytes }
    ensures runs { RunsBound (record { Lawful = L.lawful task.now.law.now; Against = L.reasons task.now.law.now }) (task_at P.Passes L.Law A.Asking task.now (says_of J.Judge bench.old))
        (λ bytes. by_standing (task_at P.Passes L.Law A.Asking task.now (says_of J.Judge bench.old) bytes)) (name_of source.now) (text_of source.now (files_told (F.story files.old)))
        (outside F.Outside F.Files.own files.old O.Sink out.old) (outside F.Outside F.Files.own files.new O.Sink out.new)
        (judging J.Judge bench.old) (judging J.Judge bench.new) result }
    ensures others { drop task.now.workers bench.new.judges ≡ drop task.now.workers bench.old.judges }
    ensures silent { A.asks task.now.asking.now ≡ false → bench.new.judges ≡ bench.old.judges }
    ensures keys { keys_of J.Judge bench.new ≡ keys_of J.Judge bench.old }
{
    match open_source(alloc, task.law, source, files, out) {
        Ok(bytes) => run_standing(rt, alloc, task, bytes, files, bench, out),
        Err(status) => status,
    }
}
