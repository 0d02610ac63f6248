// What the answers so far were, by which it is guessed, and how many tests may be begun.
ghost use Rattle.std.specs.Prelude.{◌≡◌, ◌+◌, ◌*◌, ◌≤◌, ◌<◌, ℕ};

use std::marker::Model;

/// How many of the last answers the guess of the next one is made by.
const LAST: usize = 16;

/// How many answers so far were a yes, and how many orders were given whose test was begun, or may be begun yet: three for two answers that
/// counted at most, and one for each thread. No other clause rests on it.
#[derive(Drop)]
pub struct Policy {
    /// How many tests may run at once.
    threads: u64,
    begun: u64,
    /// How many answers counted.
    counted: u64,
    /// The last ones that counted: whether each was a yes.
    last: [bool; LAST],
    next: usize,
    known: u64,
}

impl Model for Policy {
    ghost use Rattle.std.specs.Prelude.{⊤, ◌+◌, ◌*◌, ◌≤◌};

    ghost Value = { ⊤ };

    ghost view = { λ p. tt };

    ghost invariant = { λ p. 2 * p.begun ≤ 3 * p.counted + 2 * p.threads };
}

impl Policy {
    /// Before the first answer but that on the file itself, which was a yes.
    pub fn new(threads: u64) -> Policy {
        let mut policy = Policy {
            threads,
            begun: 0,
            counted: 0,
            last: [false; LAST],
            next: 0,
            known: 0,
        };
        policy.remember(true);
        policy
    }

    /// How many tests may run at once.
    pub fn threads(&self) -> u64 {
        self.threads
    }

    /// The chance, in thousandths, that the next answer is a yes.
    pub fn chance(&self) -> u64 {
        let mut yes = 0u64;
        for answer in &self.last {
            if *answer {
                yes = yes.saturating_add(1);
            }
        }
        let all = self.known.saturating_add(2);
        (yes.saturating_mul(1000).saturating_add(600) / all)
            .max(20)
            .min(980)
    }

    /// Whether one more order may be given.
    pub fn may_begin(&self) -> bool {
        self.begun < most_begun(self.counted, self.threads)
    }

    /// Gives one more order, if that may be. Answers whether it may.
    pub fn begin(&mut self) -> bool {
        if self.begun >= most_begun(self.counted, self.threads) {
            return false;
        }
        self.begun += 1;
        true
    }

    /// An order ended without a test, or wasn't given.
    pub fn refund(&mut self) {
        self.begun = self.begun.saturating_sub(1);
    }

    /// The walk has gone past an order. Where the question was asked, its answer counts.
    pub fn count(&mut self, asked: bool, yes: bool) {
        if asked {
            self.counted = self.counted.saturating_add(1);
            self.remember(yes);
        }
    }

    fn remember(&mut self, yes: bool) {
        let at = self.next % LAST;
        self.last[at] = yes;
        self.next = at + 1;
        self.known = self.known.saturating_add(1).min(LAST as u64);
    }
}

/// How many orders may have been given, when so many answers have counted.
fn most_begun(counted: u64, threads: u64) -> u64
    ensures { 2 * result ≤ 3 * counted + 2 * threads }
{
    let for_answers = counted.saturating_mul(3);
    for_answers.saturating_add(threads.saturating_mul(2)) / 2
}
