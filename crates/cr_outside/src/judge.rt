// Who answers a test's question about a file.
ghost use Rattle.std.specs.Prelude.{◌≡◌, ◌≢◌, ◌≤◌, ℕ, Bool, List, Option};
ghost use Rattle.cr_outside.specs.Faults.{Rose, raised};
ghost use Rattle.cr_outside.specs.Judge.{Agrees, Call, Gains};

use std::alloc::Global;

/// What was answered about a file.
#[derive(Clone, Copy, Debug, PartialEq, Eq, Drop)]
pub enum Answer {
    /// The file is still interesting.
    Yes,
    No,
    /// The test could not be run.
    Failed,
    NoMemory,
}

/// Answers a test's question about a file, as by running the user's program on it.
///
/// A judge may tell what it would say of each file, and which calls it was asked.
pub trait Judge {
    /// What the told answers depend on, beside the test, the name and the file.
    type Key;

    /// It never changes.
    ghost key: { Self → Self.Key };

    /// The told answer: to this test, about a file of this name with these bytes.
    ghost says: { Self.Key → List ℕ → List ℕ → List ℕ → Option Bool };

    /// How many calls were made. It stays at its last value, 2^64 - 1.
    ghost asked: { Self → ℕ };

    /// The calls so far, where they are told.
    ghost calls: { Self → Option (List Call) };

    /// How often the outside has failed. It never falls.
    ghost faults: { Self → ℕ };

    /// Asks `test` about `file`, which the test sees under the name `name`.
    fn ask(&mut self, alloc: Global, test: &str, name: &str, file: &[u8]) -> Answer
        ensures told { Agrees (says (key self.old) test.now name.now file.now) result }
        ensures call { Gains (calls self.old) (calls self.new) test.now name.now file.now result }
        ensures counted { asked self.new ≡ raised (asked self.old) }
        ensures key { key self.new ≡ key self.old }
        ensures later { faults self.old ≤ faults self.new }
        ensures failed { result ≡ Answer.Failed → Rose (faults self.old) (faults self.new) };
}
