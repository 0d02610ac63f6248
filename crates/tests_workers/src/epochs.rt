// Epochs of a lines pass over three lines. From position 13 on its variants are the last line, the first two, the last two, the outer
// two, and the first two once more.
ghost use Rattle.std.specs.Prelude.{◌≡◌, ◌<◌, ◌≤◌, [], IfOk, None, length};
ghost use Rattle.cr_pool.specs.Jobs.{IsPlaced};
ghost use Rattle.cr_pool.specs.Sizes.{HasSize};

use crate::meeting::{meeting_bench, reaches};
use cr_cursor::{Law, NoMemory, Passes, Reason, Ruling, Stop, TokenLaw, positions};
use cr_outside::{Answer, Judge, Test};
use cr_pool::{Bench, EpochEnd, Job, measure};
use cr_tokens::{Tokens, read};
use pass_list::CPasses;
use std::alloc::Global;
use std::process::Abort;
use std::sync::atomic::{AtomicU64, Ordering};
use std::thread;
use std::thread::Threads;

const LINES: &[u8] = b"int a;\nint b;\nint c;\n";

const LAST: &[u8] = b"int c;\n";

const FIRST_TWO: &[u8] = b"int a;\nint b;\n";

const LAST_TWO: &[u8] = b"int b;\nint c;\n";

/// The size of a file, which has one.
pub(crate) fn size_of(rt: &impl Abort, alloc: Global, file: &[u8]) -> Result<u64, NoMemory>
    ensures { IfOk result (λ size. HasSize file.now size) }
{
    match measure(alloc, file)? {
        Some(size) => Ok(size),
        None => panic!(rt; "the lines have no size"),
    }
}

/// Whether an epoch rejected all of its variants, which are so many.
pub(crate) fn rejected_all(end: &EpochEnd, count: u64) -> bool {
    match end {
        EpochEnd::NoneOf(n) => *n == count,
        _ => false,
    }
}

fn has_found(end: &EpochEnd, position: u64, file: &[u8]) -> bool {
    match end {
        EpochEnd::Found(at, variant) => *at == position && variant.as_slice() == file,
        _ => false,
    }
}

// The end of the epoch of `len` positions from 13 on, by all judges of a bench that keeps nothing yet.
fn epoch<R: Threads + Abort + Sync, L: Law + Sync, J: Judge + Send>(
    rt: &R,
    alloc: Global,
    law: &L,
    bench: &mut Bench<J>,
    len: u64,
) -> Result<EpochEnd, NoMemory>
    requires kept { bench.old.kept ≡ [] }
    requires few { len ≤ 5 }
{
    let size = size_of(rt, alloc, LINES)?;
    let question = Test::Program(String::from_str(alloc, "t")?);
    let passes = CPasses::lines();
    let prep = passes.prepare(alloc, LINES)?;
    assert!(rt;
        positions(&passes, &prep) == 18,
        "another number of positions than 18"
    );
    let job = Job {
        passes: &passes,
        prep: &prep,
        law,
        question: &question,
        name: "t.c",
        file: LINES,
        size,
        start: 13,
        len,
        workers: bench.workers(),
    };
    Ok(bench.epoch(rt, alloc, &job))
}

#[test]
fn trials_run_at_once(rt: HostRuntime) -> Result<(), NoMemory> {
    let begun = AtomicU64::new(0);
    let missed = AtomicU64::new(0);
    let mut bench = meeting_bench(rt.alloc(), &begun, &missed)?;
    let end = epoch(&rt, rt.alloc(), &TokenLaw, &mut bench, 5)?;
    assert!(rt; rejected_all(&end, 5), "the epoch didn't reject all");
    assert!(rt;
        missed.load(Ordering::SeqCst) == 0,
        "a trial waited for another one in vain"
    );
    Ok(())
}

// Finds every file lawful but one; on that one it raises a flag, and looks many times whether it is to stop.
#[derive(Drop)]
struct Waiting<'a> {
    unlawful: &'a [u8],
    flag: &'a AtomicU64,
    stopped: &'a AtomicU64,
}

impl<'a> Law for Waiting<'a> {
    ghost lawful = { λ law file. law.unlawful.now ≡ file → ⊥ };

    ghost reasons = { λ _ _ _. Unit {0} };

    fn rule<S: Stop>(&self, alloc: Global, file: &[u8], stop: &mut S) -> Ruling {
        match read(alloc, file) {
            Ok(tokens) => self.rule_on_tokens(alloc, file, &tokens, stop),
            Err(_) => Ruling::NoMemory,
        }
    }

    fn rule_on_tokens<S: Stop>(
        &self,
        _alloc: Global,
        file: &[u8],
        _tokens: &Tokens,
        stop: &mut S,
    ) -> Ruling {
        if self.unlawful != file {
            return Ruling::Lawful;
        }
        self.flag.store(1, Ordering::SeqCst);
        for _ in 0..10_000_000 {
            if stop.stop() {
                self.stopped.store(1, Ordering::SeqCst);
                return Ruling::Stopped;
            }
            thread::yield_now();
        }
        Ruling::Unlawful(Reason::Token(2, 1))
    }
}

// Says yes once the flag is raised.
#[derive(Drop)]
struct Following<'a> {
    flag: &'a AtomicU64,
    asked: u64,
}

impl<'a> Judge for Following<'a> {
    type Key = ();

    ghost key = { λ _. tt };

    ghost says = { λ _ _ _ _. None };

    ghost asked = { λ j. j.asked };

    ghost calls = { λ _. None };

    ghost faults = { λ _. 0 };

    fn ask(&mut self, _alloc: Global, _test: &str, _name: &str, _file: &[u8]) -> Answer {
        self.asked = self.asked.saturating_add(1);
        if reaches(self.flag, 1) {
            Answer::Yes
        } else {
            Answer::No
        }
    }
}

fn following_bench<'a>(alloc: Global, flag: &'a AtomicU64) -> Result<Bench<Following<'a>>, NoMemory>
    ensures { IfOk result (λ bench. bench.kept ≡ []) }
{
    let mut judges = Vec::new(alloc);
    judges.push(Following { flag, asked: 0 })?;
    judges.push(Following { flag, asked: 0 })?;
    Bench::new(alloc, judges)
}

#[test]
fn a_law_is_told_of_a_lower_hit(rt: HostRuntime) -> Result<(), NoMemory> {
    let flag = AtomicU64::new(0);
    let stopped = AtomicU64::new(0);
    let law = Waiting {
        unlawful: FIRST_TWO,
        flag: &flag,
        stopped: &stopped,
    };
    let mut bench = following_bench(rt.alloc(), &flag)?;
    let end = epoch(&rt, rt.alloc(), &law, &mut bench, 2)?;
    assert!(rt;
        has_found(&end, 13, LAST),
        "the epoch found another position, or none"
    );
    assert!(rt;
        stopped.load(Ordering::SeqCst) == 1,
        "the law was stopped another number of times"
    );
    Ok(())
}

// Answers by the file, after a delay: the last line, the first two, the last two, any other file.
#[derive(Drop)]
struct Chance {
    says: Said,
    delay: u64,
    asked: u64,
    faults: u64,
}

impl Judge for Chance {
    type Key = ();

    ghost key = { λ _. tt };

    ghost says = { λ _ _ _ _. None };

    ghost asked = { λ j. j.asked };

    ghost calls = { λ _. None };

    ghost faults = { λ j. j.faults };

    fn ask(&mut self, _alloc: Global, _test: &str, _name: &str, file: &[u8]) -> Answer {
        self.asked = self.asked.saturating_add(1);
        for _ in 0..self.delay {
            thread::yield_now();
        }
        let answer = if file == LAST {
            self.says.last
        } else if file == FIRST_TWO {
            self.says.first_two
        } else if file == LAST_TWO {
            self.says.last_two
        } else {
            self.says.other
        };
        if answer == Answer::Failed {
            self.faults = self.faults.saturating_add(1);
        }
        answer
    }
}

// One of the answers Yes, No and Failed, No as often as the others together.
fn drawn(seed: u64, place: u32) -> Answer {
    match seed.wrapping_shr(place) % 4 {
        0 => Answer::Yes,
        1 => Answer::Failed,
        _ => Answer::No,
    }
}

// What one worker that tries the positions in order comes to: at which of the five it ends, and how.
fn in_order(seed: u64) -> (u64, Answer) {
    let says = drawn_by(seed);
    let answers = [
        says.last,
        says.first_two,
        says.last_two,
        says.other,
        says.first_two,
    ];
    for (i, answer) in answers.iter().enumerate() {
        if *answer != Answer::No {
            return (13 + i as u64, *answer);
        }
    }
    (18, Answer::No)
}

// Whether an epoch ended as it does in order.
fn ends_so(end: &EpochEnd, wanted: (u64, Answer)) -> bool {
    match end {
        EpochEnd::NoneOf(n) => *n == 5 && wanted == (18, Answer::No),
        EpochEnd::Found(at, _) => wanted == (*at, Answer::Yes),
        EpochEnd::Fault(at, _) => wanted == (*at, Answer::Failed),
        EpochEnd::NoMemory => false,
    }
}

/// What the judges say of the last line, the first two, the last two and any other file, yes, no or failed, and where the
/// epoch ends, and how: at the first position that isn't rejected, whatever is said behind it.
const ROWS: &str = "\
nnnn 18 n
nynn 14 y
nyfn 14 y
yfff 13 y
fyyy 13 f
nnyf 15 y
nnfn 15 f
nnny 16 y
";

fn answer_for(letter: Option<&u8>) -> Answer {
    match letter {
        Some(b'y') => Answer::Yes,
        Some(b'f') => Answer::Failed,
        _ => Answer::No,
    }
}

// What judges say of the last line, the first two, the last two and any other file.
#[derive(Clone, Copy)]
struct Said {
    last: Answer,
    first_two: Answer,
    last_two: Answer,
    other: Answer,
}

fn said_by(letters: &[u8]) -> Said {
    Said {
        last: answer_for(letters.first()),
        first_two: answer_for(letters.get(1)),
        last_two: answer_for(letters.get(2)),
        other: answer_for(letters.get(3)),
    }
}

fn drawn_by(seed: u64) -> Said {
    Said {
        last: drawn(seed, 20),
        first_two: drawn(seed, 30),
        last_two: drawn(seed, 40),
        other: drawn(seed, 50),
    }
}

// So many judges who say this, each after a delay of its own.
fn judges_of(alloc: Global, says: Said, seed: u64, count: u64) -> Result<Vec<Chance>, NoMemory>
    requires { count ≤ 32 }
    ensures { IfOk result (λ judges. length judges.items ≡ count) }
{
    let mut judges = Vec::new(alloc);
    for worker in 0..count {
        judges.push(Chance {
            says,
            delay: seed.wrapping_add(worker.wrapping_mul(7)) % 13,
            asked: 0,
            faults: 0,
        })?;
    }
    Ok(judges)
}

fn bench_of(alloc: Global, says: Said, seed: u64, count: u64) -> Result<Bench<Chance>, NoMemory>
    requires { (0 < count) × (count ≤ 32) }
    ensures { IfOk result (λ bench. bench.kept ≡ []) }
{
    let judges = judges_of(alloc, says, seed, count)?;
    Bench::new(alloc, judges)
}

// Whether the epoch of all five positions by so many judges ends as is wanted.
fn ends_by(
    rt: &(impl Threads + Abort + Sync),
    alloc: Global,
    says: Said,
    seed: u64,
    count: u64,
    wanted: (u64, Answer),
) -> Result<bool, NoMemory>
    requires { (0 < count) × (count ≤ 32) }
{
    let mut bench = bench_of(alloc, says, seed, count)?;
    let end = epoch(rt, alloc, &TokenLaw, &mut bench, 5)?;
    Ok(ends_so(&end, wanted))
}

fn expect_row(
    rt: &(impl Threads + Abort + Sync),
    alloc: Global,
    row: &str,
) -> Result<(), NoMemory> {
    let letters = row.as_bytes();
    let at = row.split_whitespace().nth(1).unwrap_or("").parse();
    let wanted = (at.unwrap_or(0), answer_for(letters.last()));
    for count in [1, 2, 3] {
        let so = ends_by(rt, alloc, said_by(letters), 0, count, wanted)?;
        assert!(rt; so, "{row} by {count}");
    }
    Ok(())
}

#[test]
fn an_epoch_ends_by_the_first_position_not_rejected(rt: HostRuntime) -> Result<(), NoMemory> {
    for row in ROWS.lines() {
        expect_row(&rt, rt.alloc(), row)?;
    }
    Ok(())
}

#[test]
fn a_thousand_epochs_end_as_in_order(rt: HostRuntime) -> Result<(), NoMemory> {
    let mut seed: u64 = 30;
    for turn in 0..1000 {
        seed = seed
            .wrapping_mul(6_364_136_223_846_793_005)
            .wrapping_add(1_442_695_040_888_963_407);
        let count = match turn % 5 {
            0 => 1,
            1 => 2,
            2 => 3,
            3 => 8,
            _ => 32,
        };
        let so = ends_by(&rt, rt.alloc(), drawn_by(seed), seed, count, in_order(seed))?;
        assert!(rt; so, "epoch {turn} of seed {seed}");
    }
    Ok(())
}
