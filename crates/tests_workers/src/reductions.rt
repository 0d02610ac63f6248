// Reductions of three lines by the lines pass. What is wanted was found by hand from the rules of the pass and of the reduction.
ghost use Rattle.std.specs.Prelude.{◌≡◌, ◌<◌, ◌≤◌};

use crate::judges::{Knowing, Onward};
use crate::meeting::meeting_bench;
use cr_cursor::TokenLaw;
use cr_outside::{Answer, Judge, Test};
use cr_pool::{Bench, Worker, measure};
use cr_reduce::{Accepted, End, Plan, Why};
use cr_standing::reduce_standing;
use pass_list::CPasses;
use std::alloc::{AllocError, Global};
use std::process::Abort;
use std::sync::Wait;
use std::sync::atomic::{AtomicU64, Ordering};
use std::thread::Threads;

const LINES: &[u8] = b"int a;\nint b;\nint c;\n";

const TWO: &[u8] = b"int a;\nint b;\n";

const ONE: &[u8] = b"int b;\n";

const KNOWN: &[(&[u8], Answer)] = &[(TWO, Answer::Yes), (ONE, Answer::Yes)];

const WITH_A_FAULT: &[(&[u8], Answer)] = &[
    (TWO, Answer::Yes),
    (ONE, Answer::Yes),
    (b"int b;\nint c;\n", Answer::Failed),
];

const FAILING: &[(&[u8], Answer)] = &[(b"int c;\n", Answer::Failed)];

/// The end of the reduction of the three lines by all judges of a bench.
fn reduced<R: Threads + Wait + Abort + Sync, J: Judge + Send + Drop>(
    rt: &R,
    alloc: Global,
    bench: &mut Bench<J>,
    window: u32,
) -> Result<End, AllocError>
    requires window { (0 < window) × (window ≤ 4096) }
{
    reduced_within(rt, alloc, bench, LINES, window, None)
}

/// The end of the reduction of a file, with a limit on its turns.
fn reduced_within<R: Threads + Wait + Abort + Sync, J: Judge + Send + Drop>(
    rt: &R,
    alloc: Global,
    bench: &mut Bench<J>,
    text: &[u8],
    window: u32,
    limit: Option<u64>,
) -> Result<End, AllocError>
    requires window { (0 < window) × (window ≤ 4096) }
{
    let mut file = Vec::with_capacity(alloc, text.len())?;
    file.extend_from_slice(text)?;
    let Some(_size) = measure(alloc, file.as_slice())? else {
        panic!(rt; "the lines have no size");
    };
    let plan = Plan {
        workers: bench.workers(),
        window,
        limit,
    };
    let question = Test::Program(String::from_str(alloc, "t")?);
    let passes = CPasses::lines();
    Ok(reduce_standing(
        rt, alloc, &passes, &TokenLaw, &question, bench, "t.c", file, &plan,
    ))
}

/// Whether this was accepted: the first pass's variant at a level and an index, with its size and its turn.
fn is_row(one: &Accepted, level: u8, index: u64, size: u64, turn: u64) -> bool {
    one.at.pass == 0
        && one.at.level == level
        && one.at.index == index
        && one.size == size
        && one.turn == turn
}

fn is_wanted(end: &End) -> bool {
    end.file.as_slice() == ONE
        && end.turns == 32
        && end.why == Why::Fixed
        && end.accepted.len() == 2
        && is_row(&end.accepted[0], 13, 1, 68, 15)
        && is_row(&end.accepted[1], 14, 0, 34, 16)
}

/// A bench of so many judges that know this.
fn knowing(
    alloc: Global,
    known: &'static [(&'static [u8], Answer)],
    count: u64,
) -> Result<Bench<Knowing>, AllocError>
    requires { (0 < count) × (count ≤ 32) }
{
    let mut judges = Vec::new(alloc);
    for _ in 0..count {
        judges.push(Knowing::new(known, 0))?;
    }
    Bench::new(alloc, judges)
}

/// How often the first judge failed.
fn faults_of_first(alloc: Global, bench: &mut Bench<Knowing>) -> u64 {
    bench.lend(
        alloc,
        |workers: Vec<Worker<Knowing>>| -> (Vec<Worker<Knowing>>, u64)
            ensures { result.0 ≡ workers }
        {
            let faults = match workers.first() {
                Some(worker) => worker.judge.faults,
                None => 0,
            };
            (workers, faults)
        },
    )
}

#[test]
fn any_number_of_workers_come_to_the_same(rt: HostRuntime) -> Result<(), AllocError> {
    for workers in 1..5u64 {
        for window in [1u32, 2, 8, 256] {
            let mut bench = knowing(rt.alloc(), KNOWN, workers)?;
            let end = reduced(&rt, rt.alloc(), &mut bench, window)?;
            assert!(rt;
                is_wanted(&end),
                "another end than the one-thread reduction's"
            );
            assert!(rt;
                u64::from(bench.workers()) == workers,
                "another number of workers"
            );
        }
    }
    Ok(())
}

#[test]
fn a_failed_test_above_the_hit_is_dropped(rt: HostRuntime) -> Result<(), AllocError> {
    let mut bench = knowing(rt.alloc(), WITH_A_FAULT, 4)?;
    let end = reduced(&rt, rt.alloc(), &mut bench, 8)?;
    assert!(rt;
        is_wanted(&end),
        "another end than the one-thread reduction's"
    );
    Ok(())
}

#[test]
fn a_worker_whose_test_fails_ends_nothing(rt: HostRuntime) -> Result<(), AllocError> {
    let mut judges = Vec::new(rt.alloc());
    judges.push(Knowing::new(KNOWN, 0))?;
    judges.push(Knowing::new(KNOWN, 100))?;
    let mut bench = Bench::new(rt.alloc(), judges)?;
    let end = reduced(&rt, rt.alloc(), &mut bench, 8)?;
    assert!(rt;
        is_wanted(&end),
        "another end than the one-thread reduction's"
    );
    Ok(())
}

#[test]
fn the_first_judges_failed_test_ends_it(rt: HostRuntime) -> Result<(), AllocError> {
    let mut bench = knowing(rt.alloc(), FAILING, 2)?;
    let end = reduced(&rt, rt.alloc(), &mut bench, 8)?;
    assert!(rt; end.why == Why::Fault(14, 0), "another end");
    assert!(rt;
        end.turns == 13 && end.file.as_slice() == LINES,
        "other turns, or another file"
    );
    assert!(rt;
        faults_of_first(rt.alloc(), &mut bench) > 0,
        "the first judge counted no fault"
    );
    Ok(())
}

#[test]
fn trials_run_at_once(rt: HostRuntime) -> Result<(), AllocError> {
    let begun = AtomicU64::new(0);
    let missed = AtomicU64::new(0);
    let mut bench = meeting_bench(rt.alloc(), &begun, &missed)?;
    let end = reduced(&rt, rt.alloc(), &mut bench, 8)?;
    assert!(rt; end.why == Why::Fixed && end.turns == 18, "another end");
    assert!(rt;
        missed.load(Ordering::SeqCst) == 0,
        "a trial waited for another one in vain"
    );
    Ok(())
}

#[test]
fn each_limit_ends_it_at_its_turn(rt: HostRuntime) -> Result<(), AllocError> {
    for limit in 0..20u64 {
        let mut bench = knowing(rt.alloc(), &[], 4)?;
        let end = reduced_within(&rt, rt.alloc(), &mut bench, LINES, 5, Some(limit))?;
        assert!(rt; end.turns == limit.min(18));
        let why = if limit < 18 { Why::Limit } else { Why::Fixed };
        assert!(rt; end.why == why);
    }
    Ok(())
}

#[test]
fn a_guessed_file_is_tried_while_its_test_runs(rt: HostRuntime) -> Result<(), AllocError> {
    let least = AtomicU64::new(u64::MAX);
    let missed = AtomicU64::new(0);
    let mut judges = Vec::new(rt.alloc());
    judges.push(Onward::new(&least, &missed))?;
    judges.push(Onward::new(&least, &missed))?;
    let mut bench = Bench::new(rt.alloc(), judges)?;
    let mut file = Vec::new(rt.alloc());
    for _ in 0..128u64 {
        file.extend_from_slice(b"int a;\n")?;
    }
    let end = reduced_within(&rt, rt.alloc(), &mut bench, file.as_slice(), 8, None)?;
    assert!(rt; end.why == Why::Fixed && end.file.as_slice() == b"int a;\n".as_slice());
    assert!(rt; missed.load(Ordering::SeqCst) == 0);
    Ok(())
}
