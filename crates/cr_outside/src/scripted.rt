// A judge that answers by a table.
ghost use Rattle.std.specs.Prelude.{◌≡◌, ◌≤◌, ◌↔◌, [], ◌∷◌, ◌++◌, List, ℕ, Some, Contains, OnOk, OnErr, map};
ghost use Rattle.cr_outside.specs.Faults.{Rose, raised};
ghost use Rattle.cr_outside.specs.Judge.{Agrees, Gains, IsUnlessNoMemory, call_of};
ghost use Rattle.cr_outside.specs.Scripted.{call_asked};

use crate::fault_plan::FaultPlan;
use crate::script::Script;
use crate::{Answer, Judge};
use std::alloc::{AllocError, Global};

/// One call that a judge was asked.
#[derive(Debug, Drop)]
pub struct Asked {
    pub test: String,
    pub name: String,
    pub file: Vec<u8>,
    pub answer: Answer,
}

/// A judge that answers by its script, whatever the test, and keeps its calls.
///
/// Its told answer is yes exactly where the script says `Yes`; a row of `Failed` or `NoMemory` is told as no, and the
/// call answers what the row says.
#[derive(Debug, Drop)]
pub struct Scripted {
    script: Script,
    asked: Vec<Asked>,
    plan: FaultPlan,
}

impl Scripted {
    ghost use Rattle.cr_outside.specs.Scripts.{answer_of, table_of, told_of};
    ghost use Rattle.cr_outside.specs.Scripted.{table_of_judge, failing_of, calls_of, count_of};

    /// `failing` has the numbers of the calls, from 1, that answer `Failed`, whatever the rows say.
    pub fn new(
        alloc: Global,
        rows: Vec<(Vec<u8>, Answer)>,
        other: Answer,
        failing: Vec<u64>,
    ) -> Scripted
        ensures table { table_of_judge result ≡ table_of rows.items other }
        ensures failing { failing_of result ≡ failing.items }
        ensures calls { calls_of result ≡ [] }
        ensures first { count_of result ≡ 0 }
    {
        Scripted {
            script: Script::new(rows, other),
            asked: Vec::new(alloc),
            plan: FaultPlan::new(failing),
        }
    }

    // Counts a call, and says what it answers where there is memory to keep it.
    fn answer(&mut self, file: &[u8]) -> Answer
        ensures listed { Contains (failing_of self.old) (count_of self.new) → result ≡ Answer.Failed }
        ensures scripted { (Contains (failing_of self.old) (count_of self.new) → ⊥) → result ≡ answer_of (table_of_judge self.old) file.now }
        ensures counted { count_of self.new ≡ raised (count_of self.old) }
        ensures failed { result ≡ Answer.Failed → Rose self.old.plan.faults self.new.plan.faults }
        ensures later { self.old.plan.faults ≤ self.new.plan.faults }
        ensures told { Agrees (told_of (table_of_judge self.old) file.now) result }
        ensures same { (self.new.script ≡ self.old.script) × (self.new.asked ≡ self.old.asked) × (self.new.plan.failing ≡ self.old.plan.failing) }
    {
        if self.plan.next_fails() {
            return Answer::Failed;
        }
        let answer = self.script.answer(file);
        if answer == Answer::Failed {
            self.plan.count_fault();
        }
        answer
    }

    /// The calls so far, the first one first.
    pub fn calls(&self) -> &[Asked]
        ensures { map call_asked result.now ≡ calls_of self.now }
    {
        self.asked.as_slice()
    }
}

// Keeps a call, where there is memory for it.
fn keep(
    alloc: Global,
    asked: &mut Vec<Asked>,
    test: &str,
    name: &str,
    file: &[u8],
    answer: Answer,
) -> Result<(), AllocError>
    ensures kept { OnOk result (map call_asked asked.new.items ≡ map call_asked asked.old.items ++ call_of test.now name.now file.now answer ∷ []) }
    ensures same { OnErr result (asked.new.items ≡ asked.old.items) }
{
    let test = String::from_str(alloc, test)?;
    let name = String::from_str(alloc, name)?;
    let file = file.to_vec(alloc)?;
    asked.push(Asked {
        test,
        name,
        file,
        answer,
    })?;
    Ok(())
}

impl Judge for Scripted {
    ghost use Rattle.cr_outside.specs.Scripts.{answer_of, told_of};
    ghost use Rattle.cr_outside.specs.Scripted.{table_of_judge, failing_of, calls_of, count_of};

    type Key = Script;

    ghost key = { table_of_judge };

    ghost says = { λ table test name file. told_of table file };

    ghost asked = { count_of };

    ghost calls = { λ j. Some (calls_of j) };

    ghost faults = { λ j. j.plan.faults };

    fn ask(&mut self, alloc: Global, test: &str, name: &str, file: &[u8]) -> Answer
        ensures told { Agrees (told_of (table_of_judge self.old) file.now) result }
        ensures call { Gains (Some (calls_of self.old)) (Some (calls_of self.new)) test.now name.now file.now result }
        ensures counted { count_of self.new ≡ raised (count_of self.old) }
        ensures key { table_of_judge self.new ≡ table_of_judge self.old }
        ensures later { self.old.plan.faults ≤ self.new.plan.faults }
        ensures failed { result ≡ Answer.Failed → Rose self.old.plan.faults self.new.plan.faults }

        // Failed comes exactly at the listed calls, and where the script says so.
        ensures listed { Contains (failing_of self.old) (count_of self.new) → IsUnlessNoMemory Answer.Failed result }
        ensures scripted { (Contains (failing_of self.old) (count_of self.new) → ⊥) → IsUnlessNoMemory (answer_of (table_of_judge self.old) file.now) result }
    {
        let answer = self.answer(file);
        match keep(alloc, &mut self.asked, test, name, file, answer) {
            Ok(()) => answer,
            Err(_) => Answer::NoMemory,
        }
    }
}
