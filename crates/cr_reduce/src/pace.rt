// How far a walk guesses.
ghost use Rattle.std.specs.Prelude.{◌≡◌, ◌<◌, ◌≤◌, false};

use crate::end::Plan;

/// How far a walk has come since its last acceptance, and so how far it guesses: a trial behind the first accepted variant is lost,
/// and an acceptance is often followed by another. So behind one a quarter of the workers go on, over a few tests at a time; further on
/// half of them do, and then all, over the whole window. A walk begins with all. No clause rests on it but that it stays within the plan.
#[derive(Drop)]
pub struct Pace {
    /// Whether a judge is waited for. Where none is, whether guesses are worth it is the epoch's own matter.
    asks: bool,
    /// The positions gone over, each that the test refused counted as many.
    distance: u64,
    /// The positions gone over lately, and the tests that were made of them.
    passed: u64,
    tests: u64,
}

/// As so many positions of which no test was made counts one that the test refused.
const REFUSED: u64 = 64;

/// From this distance on half of the workers try the next positions, and up to it a quarter.
const HALF_FROM: u64 = 64;

/// From this distance on all do.
const ALL_FROM: u64 = 256;

/// How many tests for each worker an epoch is to have in which not all work.
const STRETCH: u32 = 2;

/// After so many positions the older ones count half.
const LATELY: u64 = 1024;

impl Pace {
    /// The pace of a walk before its first trial.
    pub fn new(asks: bool) -> Pace
        ensures { result.asks ≡ asks }
    {
        Pace {
            asks,
            distance: ALL_FROM,
            passed: 0,
            tests: 0,
        }
    }

    /// By how many workers, and over how many positions at most, the next epoch goes.
    pub fn within(&self, plan: &Plan) -> Plan
        requires workers { 0 < plan.now.workers }
        requires window { 0 < plan.now.window }
        ensures workers { (0 < result.workers) × (result.workers ≤ plan.now.workers) }
        ensures window { (0 < result.window) × (result.window ≤ plan.now.window) }
        ensures limit { result.limit ≡ plan.now.limit }
        ensures unasked { self.now.asks ≡ false → result ≡ plan.now }
    {
        if !self.asks || self.distance >= ALL_FROM {
            return *plan;
        }
        let part = if self.distance < HALF_FROM { 4 } else { 2 };
        let workers = plan.workers.div_ceil(part);
        Plan {
            workers,
            window: plan.window.min(self.stretch(workers)),
            limit: plan.limit,
        }
    }

    /// How many positions hold a few tests for each of so many workers, by what was gone over lately.
    fn stretch(&self, workers: u32) -> u32
        requires workers { 0 < workers }
        ensures { 0 < result }
    {
        let for_each = (self.passed / self.tests.max(1)).max(1).min(4096) as u32;
        workers.saturating_mul(STRETCH).saturating_mul(for_each)
    }

    /// An epoch went over so many positions, of which the test refused so many, and accepted none.
    pub fn go_on(&mut self, passed: u64, refused: u64)
        ensures asks { self.new.asks ≡ self.old.asks }
        ensures further { self.old.distance ≤ self.new.distance }
    {
        let weighed = refused.saturating_mul(REFUSED);
        self.distance = self.distance.saturating_add(passed).saturating_add(weighed);
        if self.passed > LATELY {
            self.passed /= 2;
            self.tests /= 2;
        }
        self.passed = self.passed.saturating_add(passed);
        self.tests = self.tests.saturating_add(refused);
    }

    /// A variant was accepted.
    pub fn accept(&mut self)
        ensures asks { self.new.asks ≡ self.old.asks }
        ensures begins { self.new.distance ≡ 0 }
    {
        self.distance = 0;
        self.tests = self.tests.saturating_add(1);
    }
}
