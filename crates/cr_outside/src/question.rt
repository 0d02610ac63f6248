// What a test asks about a file.
ghost use Rattle.std.specs.Prelude.{◌≡◌, ◌≢◌, ◌≤◌, ℕ, Bool, true, false, List, Option};
ghost use Rattle.cr_outside.specs.Faults.{Rose};
ghost use Rattle.cr_outside.specs.Question.{AnswersAsTold, AsksOnce, CountsOnce, Says};

use crate::{Answer, Judge};
use std::alloc::Global;

/// A question about a file, with yes or no for an answer, which may need a judge.
pub trait Question {
    /// The told answer about a file of a name: it follows from what the judge says at its key, where it tells that.
    ghost tells: { Self → Says → List ℕ → List ℕ → Bool → Type 0 };

    /// Whether the question uses the judge. Where it doesn't, its answer is always told.
    ghost asks: { Self → Bool };

    /// Whether the question uses the judge.
    fn uses_judge(&self) -> bool
        ensures { result ≡ asks self.now };

    /// Asks about `file`, which a test sees under the name `name`.
    fn ask<J: Judge>(&self, alloc: Global, judge: &mut J, name: &str, file: &[u8]) -> Answer
        ensures told { AnswersAsTold (asks self.now) (tells self.now (J.says (J.key judge.old)) name.now file.now) result }
        ensures once { asks self.now ≡ true → AsksOnce (J.calls judge.old) (J.calls judge.new) name.now file.now result }
        ensures counted { asks self.now ≡ true → CountsOnce (J.asked judge.old) (J.asked judge.new) result }
        ensures silent { asks self.now ≡ false → judge.new ≡ judge.old }
        ensures unfailing { asks self.now ≡ false → result ≢ Answer.Failed }
        ensures key { J.key judge.new ≡ J.key judge.old }
        ensures later { J.faults judge.old ≤ J.faults judge.new }
        ensures failed { result ≡ Answer.Failed → Rose (J.faults judge.old) (J.faults judge.new) };

    /// At most one answer is told.
    ghost one_answer: { (question : Self) (says : Says) (name file : List ℕ) → tells question says name file true → tells question says name file false → ⊥ };
}
