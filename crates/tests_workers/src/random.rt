// Reductions by judges that answer by chance, yet each file always alike: by standing workers they come out as by epochs.
ghost use Rattle.std.specs.Prelude.{◌≡◌, ◌<◌, ◌≤◌, [], IfOk, length, None};

use cr_cursor::TokenLaw;
use cr_outside::{Answer, Judge, Test};
use cr_pool::{Bench, Worker, measure};
use cr_reduce::{End, Plan, reduce};
use cr_standing::reduce_standing;
use pass_list::CPasses;
use std::alloc::{AllocError, Global};
use std::process::Abort;
use std::sync::Wait;
use std::thread::Threads;

/// Answers by a number that is made of its seed and of the file's bytes.
#[derive(Drop)]
struct Chance {
    seed: u64,
    asked: u64,
}

fn mixed(seed: u64, file: &[u8]) -> u64 {
    let mut number = seed.wrapping_mul(0x9E37_79B9_7F4A_7C15);
    for byte in file {
        number = (number ^ u64::from(*byte)).wrapping_mul(0x0000_0100_0000_01B3);
        number ^= number >> 29;
    }
    number
}

impl Judge for Chance {
    type Key = ();

    ghost key = { λ _. tt };

    ghost says = { λ _ _ _ _. None };

    ghost asked = { λ j. j.asked };

    ghost calls = { λ _. None };

    ghost faults = { λ _. 0 };

    fn ask(&mut self, _alloc: Global, _test: &str, _name: &str, file: &[u8]) -> Answer {
        self.asked = self.asked.saturating_add(1);
        if mixed(self.seed, file) % 3 == 0 {
            Answer::Yes
        } else {
            Answer::No
        }
    }
}

fn bench(alloc: Global, seed: u64, workers: u32) -> Result<Bench<Chance>, AllocError>
    requires { (0 < workers) × (workers ≤ 32) }
    ensures judges { IfOk result (λ b. length b.judges ≡ workers) }
    ensures kept { IfOk result (λ b. b.kept ≡ []) }
{
    let mut judges = Vec::new(alloc);
    for _ in 0..workers {
        judges.push(Chance { seed, asked: 0 })?;
    }
    Bench::new(alloc, judges)
}

// So many lines, of one declaration each.
fn lines(alloc: Global, count: u64) -> Result<Vec<u8>, AllocError> {
    let mut text = String::new(alloc);
    for i in 0..count {
        write!(text, "int v{i};\n")?;
    }
    Ok(text.into_bytes())
}

/// One reduction, by epochs or by standing workers.
fn reduced<R: Threads + Wait + Abort + Sync>(
    rt: &R,
    alloc: Global,
    seed: u64,
    stands: bool,
    bench: &mut Bench<Chance>,
    plan: &Plan,
) -> Result<End, AllocError>
    requires workers { (0 < plan.now.workers) × (plan.now.workers ≤ length bench.old.judges) }
    requires kept { bench.old.kept ≡ [] }
    requires window { (0 < plan.now.window) × (plan.now.window ≤ 4096) }
{
    let file = lines(alloc, 2 + seed % 7)?;
    let Some(_size) = measure(alloc, file.as_slice())? else {
        panic!(rt; "the lines have no size");
    };
    let question = Test::Program(String::from_str(alloc, "t")?);
    let passes = CPasses::lines();
    Ok(if stands {
        reduce_standing(
            rt, alloc, &passes, &TokenLaw, &question, bench, "t.c", file, plan,
        )
    } else {
        reduce(
            rt, alloc, &passes, &TokenLaw, &question, bench, "t.c", file, plan,
        )
    })
}

fn are_alike(one: &End, other: &End) -> bool {
    one.file == other.file
        && one.turns == other.turns
        && one.why == other.why
        && one.accepted == other.accepted
}

/// How often all judges were asked.
fn asked_by(alloc: Global, bench: &mut Bench<Chance>) -> u64 {
    bench.lend(
        alloc,
        |workers: Vec<Worker<Chance>>| -> (Vec<Worker<Chance>>, u64)
            ensures { result.0 ≡ workers }
        {
            let mut asked = 0u64;
            for worker in &workers {
                asked = asked.saturating_add(worker.judge.asked);
            }
            (workers, asked)
        },
    )
}

#[test]
fn a_hundred_random_reductions_come_out_as_by_epochs(rt: HostRuntime) -> Result<(), AllocError> {
    for seed in 0..100u64 {
        let plan = Plan {
            workers: 1 + (seed % 32) as u32,
            window: 1 + (seed % 19) as u32,
            limit: None,
        };
        let mut by_epochs = bench(rt.alloc(), seed, plan.workers)?;
        let plain = reduced(&rt, rt.alloc(), seed, false, &mut by_epochs, &plan)?;
        let mut by_standing = bench(rt.alloc(), seed, plan.workers)?;
        let standing = reduced(&rt, rt.alloc(), seed, true, &mut by_standing, &plan)?;
        assert!(rt;
            are_alike(&standing, &plain),
            "another end than the plain run's"
        );
    }
    Ok(())
}

#[test]
fn guesses_cost_half_as_many_tests_again_at_most(rt: HostRuntime) -> Result<(), AllocError> {
    for seed in 0..20u64 {
        let alone = Plan {
            workers: 1,
            window: 16,
            limit: None,
        };
        let mut one = bench(rt.alloc(), seed, alone.workers)?;
        let _ = reduced(&rt, rt.alloc(), seed, true, &mut one, &alone)?;
        let plan = Plan {
            workers: 8,
            window: 16,
            limit: None,
        };
        let mut eight = bench(rt.alloc(), seed, plan.workers)?;
        let _ = reduced(&rt, rt.alloc(), seed, true, &mut eight, &plan)?;
        let needed = asked_by(rt.alloc(), &mut one);
        let asked = asked_by(rt.alloc(), &mut eight);
        // What two threads ask about at once, before either has an answer, counts twice.
        assert!(rt; asked.saturating_mul(2) <= needed.saturating_mul(3).saturating_add(40));
    }
    Ok(())
}
