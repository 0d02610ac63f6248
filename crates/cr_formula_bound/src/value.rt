// The value of a bound formula.
ghost use Rattle.std.specs.Prelude.{◌≡◌, false, IsTrue};
ghost use Rattle.cr_outside.specs.HasText.{HasText};
ghost use Rattle.cr_formula.specs.Forms.{form_of};
ghost use Rattle.cr_lawful.specs.Runs.{ComesToEnd};
ghost use Rattle.cr_formula_bound.specs.Values.{AnswersBy, IsKnown, Value, turned_of};

use crate::bound::Bound;
use crate::file_end::FileEnd;
use crate::run::{ends, is_same, prints};
use cr_formula::Formula;
use cr_outside::{Answer, Has, Judge, Question};
use std::alloc::Global;

/// What a formula answers of a file beside the input of a bound one. How the file's run ends is asked where the formula first needs it.
pub(crate) fn value_of<J: Judge>(
    formula: &Formula,
    bound: &Bound<'_>,
    alloc: Global,
    judge: &mut J,
    file: &[u8],
    run: &mut FileEnd,
) -> Answer
    requires { IsKnown (ComesToEnd bound.now.limits file.now) run.old }
    ensures value { AnswersBy (Value (form_of formula.now) bound.now.input.items bound.now.limits file.now) result }
    ensures known { IsKnown (ComesToEnd bound.now.limits file.now) run.new }
    ensures silent { judge.new ≡ judge.old }
{
    match formula {
        Formula::Has(has) => contains(has, alloc, judge, file),
        Formula::Prints(text) => match bound.find_end(alloc, file, run) {
            Ok(()) => answer_of(prints(text, &run.end)),
            Err(_) => Answer::NoMemory,
        },
        Formula::Ends(status) => match bound.find_end(alloc, file, run) {
            Ok(()) => answer_of(ends(*status, &run.end)),
            Err(_) => Answer::NoMemory,
        },
        Formula::Same => match bound.find_end(alloc, file, run) {
            Ok(()) => answer_of(is_same(&run.end, &bound.end)),
            Err(_) => Answer::NoMemory,
        },
        Formula::And(left, right) => match value_of(left, bound, alloc, judge, file, run) {
            Answer::Yes => value_of(right, bound, alloc, judge, file, run),
            other => other,
        },
        Formula::Or(left, right) => match value_of(left, bound, alloc, judge, file, run) {
            Answer::No => value_of(right, bound, alloc, judge, file, run),
            other => other,
        },
        Formula::Not(one) => turned(value_of(one, bound, alloc, judge, file, run)),
    }
}

fn contains<J: Judge>(has: &Has, alloc: Global, judge: &mut J, file: &[u8]) -> Answer
    ensures value { AnswersBy (HasText has.now file.now) result }
    ensures silent { judge.new ≡ judge.old }
{
    has.ask(alloc, judge, "", file)
}

fn answer_of(holds: bool) -> Answer
    ensures yes { IsTrue holds → result ≡ Answer.Yes }
    ensures no { holds ≡ false → result ≡ Answer.No }
{
    if holds { Answer::Yes } else { Answer::No }
}

fn turned(answer: Answer) -> Answer
    ensures { result ≡ turned_of answer }
{
    match answer {
        Answer::Yes => Answer::No,
        Answer::No => Answer::Yes,
        other => other,
    }
}
