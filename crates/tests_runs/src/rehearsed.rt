// Judges for tests, and benches of them.
ghost use Rattle.std.specs.Prelude.{◌≡◌, ◌<◌, ◌≤◌, [], IfOk, None, length};
ghost use Rattle.cr_outside.specs.Faults.{Rose};

use crate::tables::{Calls, Case};
use cr_outside::{Answer, Judge};
use cr_pool::Bench;
use std::alloc::{AllocError, Global};

/// A judge that knows beforehand what it will be asked: by this test, about files of this name, in this order. It fails
/// at any other call. It tells nothing, since it may answer differently about one file.
#[derive(Drop)]
pub(crate) struct Rehearsed {
    test: &'static str,
    name: &'static str,
    calls: Vec<Calls>,
    asked: u64,
    faults: u64,
}

impl Rehearsed {
    /// A judge that was asked nothing yet.
    pub(crate) fn new(test: &'static str, name: &'static str, calls: Vec<Calls>) -> Rehearsed
        ensures { (result.asked ≡ 0) × (result.faults ≡ 0) }
    {
        Rehearsed {
            test,
            name,
            calls,
            asked: 0,
            faults: 0,
        }
    }

    /// A judge that fails if it is asked at all.
    pub(crate) fn silent(alloc: Global) -> Rehearsed {
        Rehearsed::new("", "", Vec::new(alloc))
    }

    // What is answered to this call, if it was awaited.
    fn rehearsed(&self, test: &str, name: &str, file: &[u8]) -> Option<Answer> {
        let awaited = next(self.calls.as_slice(), self.asked)?;
        if test == self.test && name == self.name && file == awaited.file.as_slice() {
            Some(awaited.answer)
        } else {
            None
        }
    }

    fn fail(&mut self) -> Answer
        ensures answer { result ≡ Answer.Failed }
        ensures rose { Rose self.old.faults self.new.faults }
        ensures later { self.old.faults ≤ self.new.faults }
        ensures asked { self.new.asked ≡ self.old.asked }
    {
        self.faults = self.faults.saturating_add(1);
        Answer::Failed
    }
}

// The call that comes after so many.
fn next(calls: &[Calls], asked: u64) -> Option<&Calls> {
    let mut end = 0u64;
    for call in calls {
        end = end.saturating_add(call.times);
        if asked < end {
            return Some(call);
        }
    }
    None
}

impl Judge for Rehearsed {
    type Key = ();

    ghost key = { λ _. record {} };

    ghost says = { λ _ _ _ _. None };

    ghost asked = { λ j. j.asked };

    ghost calls = { λ _. None };

    ghost faults = { λ j. j.faults };

    fn ask(&mut self, _alloc: Global, test: &str, name: &str, file: &[u8]) -> Answer {
        let answer = self.rehearsed(test, name, file);
        self.asked = self.asked.saturating_add(1);
        match answer {
            Some(Answer::Yes) => Answer::Yes,
            Some(Answer::No) => Answer::No,
            Some(Answer::Failed) | None => self.fail(),
            Some(Answer::NoMemory) => Answer::NoMemory,
        }
    }
}

/// A judge that knows what to say about some files, as the calls tell, and says no to all others. It tells nothing.
#[derive(Drop)]
pub(crate) struct Knowing {
    calls: Vec<Calls>,
    asked: u64,
    faults: u64,
}

impl Knowing {
    pub(crate) fn new(calls: Vec<Calls>) -> Knowing {
        Knowing {
            calls,
            asked: 0,
            faults: 0,
        }
    }

    fn known(&self, file: &[u8]) -> Answer {
        for call in &self.calls {
            if file == call.file.as_slice() {
                return call.answer;
            }
        }
        Answer::No
    }
}

impl Judge for Knowing {
    type Key = ();

    ghost key = { λ _. record {} };

    ghost says = { λ _ _ _ _. None };

    ghost asked = { λ j. j.asked };

    ghost calls = { λ _. None };

    ghost faults = { λ j. j.faults };

    fn ask(&mut self, _alloc: Global, _test: &str, _name: &str, file: &[u8]) -> Answer {
        let answer = self.known(file);
        self.asked = self.asked.saturating_add(1);
        if answer == Answer::Failed {
            self.faults = self.faults.saturating_add(1);
        }
        answer
    }
}

/// A bench of so many judges, who fail if they are asked at all.
pub(crate) fn silent_bench(alloc: Global, count: u64) -> Result<Bench<Rehearsed>, AllocError>
    requires { (0 < count) × (count ≤ 32) }
{
    let mut judges = Vec::new(alloc);
    for _ in 0..count {
        judges.push(Rehearsed::silent(alloc))?;
    }
    Bench::new(alloc, judges)
}

/// A bench of so many judges, who know what the case's calls tell.
pub(crate) fn knowing_bench(
    alloc: Global,
    case: &Case,
    count: u64,
) -> Result<Bench<Knowing>, AllocError>
    requires { (0 < count) × (count ≤ 32) }
    ensures count { IfOk result (λ bench. length bench.judges ≡ count) }
    ensures kept { IfOk result (λ bench. bench.kept ≡ []) }
{
    let mut judges = Vec::new(alloc);
    for _ in 0..count {
        judges.push(Knowing::new(case.calls(alloc)?))?;
    }
    Bench::new(alloc, judges)
}
