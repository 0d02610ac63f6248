// Judges for tests.
ghost use Rattle.std.specs.Prelude.{None};

use cr_outside::{Answer, Judge};
use std::alloc::Global;
use std::sync::atomic::{AtomicU64, Ordering};
use std::thread;

/// Knows what to say about some files, and says no to all others. Its first calls fail, so many. It tells nothing.
#[derive(Drop)]
pub(crate) struct Knowing {
    pub(crate) known: &'static [(&'static [u8], Answer)],
    pub(crate) failing: u64,
    pub(crate) asked: u64,
    pub(crate) faults: u64,
}

impl Knowing {
    pub(crate) fn new(known: &'static [(&'static [u8], Answer)], failing: u64) -> Knowing {
        Knowing {
            known,
            failing,
            asked: 0,
            faults: 0,
        }
    }

    fn answer(&self, file: &[u8]) -> Answer {
        if self.asked < self.failing {
            return Answer::Failed;
        }
        for (about, answer) in self.known {
            if file == *about {
                return *answer;
            }
        }
        Answer::No
    }
}

impl Judge for Knowing {
    type Key = ();

    ghost key = { λ _. tt };

    ghost says = { λ _ _ _ _. None };

    ghost asked = { λ j. j.asked };

    ghost calls = { λ _. None };

    ghost faults = { λ j. j.faults };

    fn ask(&mut self, _alloc: Global, _test: &str, _name: &str, file: &[u8]) -> Answer {
        let answer = self.answer(file);
        self.asked = self.asked.saturating_add(1);
        if answer == Answer::Failed {
            self.faults = self.faults.saturating_add(1);
        }
        answer
    }
}

/// Says yes to each file but the empty one. A call about four lines of seven bytes ends only once a shorter file is asked about.
#[derive(Drop)]
pub(crate) struct Onward<'a> {
    least: &'a AtomicU64,
    missed: &'a AtomicU64,
    asked: u64,
}

impl<'a> Onward<'a> {
    pub(crate) fn new(least: &'a AtomicU64, missed: &'a AtomicU64) -> Onward<'a> {
        Onward {
            least,
            missed,
            asked: 0,
        }
    }
}

// Whether a shorter file that isn't empty is asked about while it is looked at many times.
fn falls_below(least: &AtomicU64, len: u64) -> bool {
    for _ in 0..10_000_000 {
        if least.load(Ordering::SeqCst) < len {
            return true;
        }
        thread::yield_now();
    }
    false
}

impl<'a> Judge for Onward<'a> {
    type Key = ();

    ghost key = { λ _. tt };

    ghost says = { λ _ _ _ _. None };

    ghost asked = { λ j. j.asked };

    ghost calls = { λ _. None };

    ghost faults = { λ _. 0 };

    fn ask(&mut self, _alloc: Global, _test: &str, _name: &str, file: &[u8]) -> Answer {
        self.asked = self.asked.saturating_add(1);
        if file.is_empty() {
            return Answer::No;
        }
        let len = file.len() as u64;
        self.least.fetch_min(len, Ordering::SeqCst);
        if len == 28 && !falls_below(self.least, len) {
            self.missed.store(1, Ordering::SeqCst);
        }
        Answer::Yes
    }
}
