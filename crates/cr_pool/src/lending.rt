// A worker of a bench, as a judge.
use crate::crew::Worker;
use cr_outside::{Answer, Judge};
use std::alloc::Global;

/// It tells what its judge tells, and asks that one.
impl<J: Judge> Judge for Worker<J> {
    type Key = J::Key;

    ghost key = { λ w. J.key w.judge };

    ghost says = { J.says };

    ghost asked = { λ w. J.asked w.judge };

    ghost calls = { λ w. J.calls w.judge };

    ghost faults = { λ w. J.faults w.judge };

    fn ask(&mut self, alloc: Global, test: &str, name: &str, file: &[u8]) -> Answer {
        self.judge.ask(alloc, test, name, file)
    }
}
