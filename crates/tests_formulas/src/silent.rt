// Judges who fail if they are asked at all, since a formula asks none.
ghost use Rattle.std.specs.Prelude.{None};

use cr_outside::{Answer, Judge};
use cr_pool::Bench;
use std::alloc::{AllocError, Global};

/// A judge that fails. It tells nothing.
#[derive(Drop)]
pub(crate) struct Silent {
    asked: u64,
    faults: u64,
}

impl Silent {
    pub(crate) fn new() -> Silent {
        Silent {
            asked: 0,
            faults: 0,
        }
    }
}

impl Judge for Silent {
    type Key = ();

    ghost key = { λ _. record {} };

    ghost says = { λ _ _ _ _. None };

    ghost asked = { λ j. j.asked };

    ghost calls = { λ _. None };

    ghost faults = { λ j. j.faults };

    fn ask(&mut self, _alloc: Global, _test: &str, _name: &str, _file: &[u8]) -> Answer {
        self.asked = self.asked.saturating_add(1);
        self.faults = self.faults.saturating_add(1);
        Answer::Failed
    }
}

/// A bench of four such judges.
pub(crate) fn silent_bench(alloc: Global) -> Result<Bench<Silent>, AllocError> {
    let mut judges = Vec::new(alloc);
    for _ in 0..4u64 {
        judges.push(Silent::new())?;
    }
    Bench::new(alloc, judges)
}
