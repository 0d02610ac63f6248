// Judges that wait for one another.
ghost use Rattle.std.specs.Prelude.{◌≡◌, [], IfOk, None};

use cr_outside::{Answer, Judge, NoMemory};
use cr_pool::Bench;
use std::alloc::Global;
use std::sync::atomic::{AtomicU64, Ordering};
use std::thread;

/// Whether a count reaches a number while it is looked at many times.
pub fn reaches(count: &AtomicU64, wanted: u64) -> bool {
    for _ in 0..10_000_000 {
        if count.load(Ordering::SeqCst) >= wanted {
            return true;
        }
        thread::yield_now();
    }
    false
}

/// Says no, and the call that begins first ends only once another has begun.
#[derive(Drop)]
pub struct Meeting<'a> {
    begun: &'a AtomicU64,
    missed: &'a AtomicU64,
    asked: u64,
}

impl<'a> Judge for Meeting<'a> {
    type Key = ();

    ghost key = { λ _. tt };

    ghost says = { λ _ _ _ _. None };

    ghost asked = { λ j. j.asked };

    ghost calls = { λ _. None };

    ghost faults = { λ _. 0 };

    fn ask(&mut self, _alloc: Global, _test: &str, _name: &str, _file: &[u8]) -> Answer {
        self.asked = self.asked.saturating_add(1);
        if self.begun.fetch_add(1, Ordering::SeqCst) == 0 && !reaches(self.begun, 2) {
            self.missed.store(1, Ordering::SeqCst);
        }
        Answer::No
    }
}

/// A bench of two such judges, which mark that the first call was alone for long.
pub fn meeting_bench<'a>(
    alloc: Global,
    begun: &'a AtomicU64,
    missed: &'a AtomicU64,
) -> Result<Bench<Meeting<'a>>, NoMemory>
    ensures { IfOk result (λ bench. bench.kept ≡ []) }
{
    let mut judges = Vec::new(alloc);
    judges.push(Meeting {
        begun,
        missed,
        asked: 0,
    })?;
    judges.push(Meeting {
        begun,
        missed,
        asked: 0,
    })?;
    Bench::new(alloc, judges)
}
