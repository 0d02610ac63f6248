// What words ask for is done.
ghost use Rattle.std.specs.Prelude.{◌≡◌, MatchOption, drop, false, length, string_bytes, true};
ghost use Rattle.cr_main.specs.Said.{BeginsWithIf, Does, Form, IsFormula, IsQuiet, IsRunnable, LeavesOthers, MayRun, RunsAsked, Spells, Suits, asks_test, form_of, judging, keys_of, outside, says_of, word_of};

use crate::by_formula::ByFormula;
use crate::given::run_in_modes;
use crate::messages::put_usage;
use cr_formula::{Formula, FormulaFault};
use cr_lawful::{CLaw, LastRun};
use cr_lawful_analysis::LastRead;
use cr_main_replay::replay_programs;
use cr_main_task::{Unbound, status};
use cr_main_words::{Modes, Request, Settings};
use cr_outside::{Files, Judge, Sink, Test};
use cr_outside_disk::Disk;
use cr_pool::Bench;
use std::alloc::Global;
use std::sync::Wait;
use std::thread::Threads;

/// Does what words ask for.
pub fn run_request<R: Threads + Wait + Sync, W: Files + Disk, J: Judge + Send + Drop, O: Sink>(
    rt: &R,
    alloc: Global,
    request: &Request,
    world: &mut W,
    bench: &mut Bench<J>,
    out: &mut O,
) -> u8
    requires runnable { MayRun (length bench.old.judges) request.now }
    ensures does { Does request.now (says_of J.Judge bench.old)
        (outside W.Outside W.Files.own world.old O.Sink out.old) (outside W.Outside W.Files.own world.new O.Sink out.new)
        (judging J.Judge bench.old) (judging J.Judge bench.new) (W.Disk.has_failed world.new) result }
    ensures others { LeavesOthers request.now bench.old.judges bench.new.judges }
    ensures silent { IsQuiet request.now → bench.new.judges ≡ bench.old.judges }
    ensures keys { keys_of J.Judge bench.new ≡ keys_of J.Judge bench.old }
{
    match request {
        Request::Reduction(settings, modes) => {
            run_asked(rt, alloc, settings, modes, world, bench, out)
        }
        Request::Replay(asked) => replay_programs(
            alloc,
            asked.steps,
            asked.enabled,
            asked.log.as_str(),
            asked.file.as_str(),
            world,
            out,
        ),
    }
}

// Runs the reducer as these settings ask, in these modes. A test that begins as a formula and spells none is answered as words in no form are.
fn run_asked<R: Threads + Wait + Sync, W: Files + Disk, J: Judge + Send + Drop, O: Sink>(
    rt: &R,
    alloc: Global,
    settings: &Settings,
    modes: &Modes,
    world: &mut W,
    bench: &mut Bench<J>,
    out: &mut O,
) -> u8
    requires runnable { IsRunnable (length bench.old.judges) settings.now }
    requires suits { Suits modes.now.engine settings.now.source }
    ensures runs { RunsAsked settings.now modes.now (says_of J.Judge bench.old)
        (outside W.Outside W.Files.own world.old O.Sink out.old) (outside W.Outside W.Files.own world.new O.Sink out.new)
        (judging J.Judge bench.old) (judging J.Judge bench.new) (W.Disk.has_failed world.new) result }
    ensures others { drop settings.now.workers bench.new.judges ≡ drop settings.now.workers bench.old.judges }
    ensures formula { IsFormula settings.now.test → bench.new.judges ≡ bench.old.judges }
    ensures silent { asks_test settings.now.test ≡ false → bench.new.judges ≡ bench.old.judges }
    ensures keys { keys_of J.Judge bench.new ≡ keys_of J.Judge bench.old }
{
    let word = match formula_word(&settings.test) {
        Some(word) => word,
        None => return run_by_test(rt, alloc, settings, modes, world, bench, out),
    };
    let formula = match Formula::read(alloc, word) {
        Ok(formula) => formula,
        Err(FormulaFault::Form) => return put_usage(out),
        Err(FormulaFault::NoMemory) => return status::NO_MEMORY,
    };
    let status = run_by_formula(rt, alloc, settings, modes, &formula, world, bench, out);
    drop(formula);
    status
}

// Runs by a test that is no formula.
fn run_by_test<R: Threads + Wait + Sync, W: Files + Disk, J: Judge + Send + Drop, O: Sink>(
    rt: &R,
    alloc: Global,
    settings: &Settings,
    modes: &Modes,
    world: &mut W,
    bench: &mut Bench<J>,
    out: &mut O,
) -> u8
    requires runnable { IsRunnable (length bench.old.judges) settings.now }
    requires suits { Suits modes.now.engine settings.now.source }
    requires no_formula { IsFormula settings.now.test → ⊥ }
    ensures runs { RunsAsked settings.now modes.now (says_of J.Judge bench.old)
        (outside W.Outside W.Files.own world.old O.Sink out.old) (outside W.Outside W.Files.own world.new O.Sink out.new)
        (judging J.Judge bench.old) (judging J.Judge bench.new) (W.Disk.has_failed world.new) result }
    ensures others { drop settings.now.workers bench.new.judges ≡ drop settings.now.workers bench.old.judges }
    ensures silent { asks_test settings.now.test ≡ false → bench.new.judges ≡ bench.old.judges }
    ensures keys { keys_of J.Judge bench.new ≡ keys_of J.Judge bench.old }
{
    let last = LastRead::new();
    let law = CLaw::with_steps(settings.steps, Some(&last));
    let asking = Unbound {
        question: &settings.test,
    };
    run_in_modes(rt, alloc, settings, modes, &law, &asking, world, bench, out)
}

// Runs by a formula. The law leaves how the run of each lawful file ended, so that the formula doesn't run it again.
fn run_by_formula<R: Threads + Wait + Sync, W: Files + Disk, J: Judge + Send + Drop, O: Sink>(
    rt: &R,
    alloc: Global,
    settings: &Settings,
    modes: &Modes,
    formula: &Formula,
    world: &mut W,
    bench: &mut Bench<J>,
    out: &mut O,
) -> u8
    requires runnable { IsRunnable (length bench.old.judges) settings.now }
    requires suits { Suits modes.now.engine settings.now.source }
    requires formula { IsFormula settings.now.test }
    requires spelled { Spells (word_of settings.now.test) (form_of formula.now) }
    ensures runs { RunsAsked settings.now modes.now (says_of J.Judge bench.old)
        (outside W.Outside W.Files.own world.old O.Sink out.old) (outside W.Outside W.Files.own world.new O.Sink out.new)
        (judging J.Judge bench.old) (judging J.Judge bench.new) (W.Disk.has_failed world.new) result }
    ensures others { drop settings.now.workers bench.new.judges ≡ drop settings.now.workers bench.old.judges }
    ensures silent { bench.new.judges ≡ bench.old.judges }
    ensures keys { keys_of J.Judge bench.new ≡ keys_of J.Judge bench.old }
{
    let last = LastRead::new();
    let runs = LastRun::new();
    let law = CLaw::with_steps(settings.steps, Some(&last)).leaving_runs(&runs);
    let asking = asking_by(formula, &law);
    run_in_modes(rt, alloc, settings, modes, &law, &asking, world, bench, out)
}

// What a run by a formula asks, within the limits of a law that leaves how runs end.
fn asking_by<'a>(formula: &'a Formula, law: &CLaw<'a>) -> ByFormula<'a>
    ensures formula { result.formula.now ≡ formula.entry.now }
    ensures limits { result.limits ≡ law.now.limits }
{
    let runs = law.runs;
    ByFormula {
        formula,
        limits: law.limits,
        runs,
    }
}

// The word of a test that begins with `if:`.
fn formula_word(test: &Test) -> Option<&str>
    ensures { MatchOption result (IsFormula test.now → ⊥) (λ word. IsFormula test.now × (word.now ≡ word_of test.now)) }
{
    match test {
        Test::Program(path) => formula_in(path),
        Test::Has(_) => None,
    }
}

fn formula_in(path: &String) -> Option<&str>
    ensures { MatchOption result (BeginsWithIf (string_bytes path.now) → ⊥) (λ word. BeginsWithIf (string_bytes path.now) × (word.now ≡ string_bytes path.now)) }
{
    if begins_with_if(path.as_bytes()) {
        Some(path.as_str())
    } else {
        None
    }
}

fn begins_with_if(path: &[u8]) -> bool
    ensures formula { result ≡ true → BeginsWithIf path.now }
    ensures other { result ≡ false → BeginsWithIf path.now → ⊥ }
{
    match path.strip_prefix(b"if:") {
        Some(_) => true,
        None => false,
    }
}
