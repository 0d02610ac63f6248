// A formula with what the run of the input came to, as a question.
ghost use Rattle.std.specs.Prelude.{◌≡◌, IfOk, IfSome, false, true};
ghost use Rattle.cr_formula.specs.Forms.{form_of};
ghost use Rattle.cr_lawful.specs.Lawful.{IsLawful};
ghost use Rattle.cr_lawful.specs.Runs.{ComesToEnd, EndsAs};
ghost use Rattle.cr_formula_bound.specs.Values.{IsKnown};

use crate::file_end::FileEnd;
use crate::value::value_of;
use cr_formula::Formula;
use cr_lawful::{Ended, LastRun, end_of};
use cr_meaning::Limits;
use cr_outside::{Answer, Judge, NoMemory, Question};
use std::alloc::Global;

/// A formula, bound to an input whose run within the limits ended.
#[derive(Drop)]
pub struct Bound<'a> {
    pub formula: &'a Formula,
    pub limits: Limits,
    pub input: Vec<u8>,
    /// How the input's run ended.
    pub end: Ended,
    /// Where the law leaves how the run of the last lawful file ended, so that it isn't run again.
    pub runs: Option<&'a LastRun>,
    ghost ended: { ComesToEnd limits input.items end.status end.output },
}

impl<'a> Bound<'a> {
    /// Binds a formula to a lawful input, which is run unless the law has just left how its run ended.
    pub fn bind(
        alloc: Global,
        formula: &'a Formula,
        limits: Limits,
        input: Vec<u8>,
        runs: Option<&'a LastRun>,
    ) -> Result<Bound<'a>, NoMemory>
        requires { IsLawful limits input.items }
        ensures formula { IfOk result (λ b. b.formula.now ≡ formula.entry.now) }
        ensures limits { IfOk result (λ b. b.limits ≡ limits) }
        ensures input { IfOk result (λ b. b.input ≡ input) }
    {
        let end = match end_at(alloc, input.as_slice(), limits, runs) {
            Ok(end) => end,
            Err(fault) => return Err(fault),
        };
        match end {
            Some(end) => Ok(Bound {
                formula,
                limits,
                input,
                end,
                runs,
            }),
            None => unreachable!(),
        }
    }

    /// Finds how a file's run ends, where that isn't known.
    pub(crate) fn find_end(
        &self,
        alloc: Global,
        file: &[u8],
        run: &mut FileEnd,
    ) -> Result<(), NoMemory>
        requires { IsKnown (ComesToEnd self.now.limits file.now) run.old }
        ensures known { IsKnown (ComesToEnd self.now.limits file.now) run.new }
        ensures found { IfOk result (λ _. run.new.is_known ≡ true) }
    {
        if !run.is_known {
            run.end = end_at(alloc, file, self.limits, self.runs)?;
            run.is_known = true;
        }
        Ok(())
    }
}

impl<'a> Question for Bound<'a> {
    ghost use Rattle.cr_formula.specs.Forms.{form_of};
    ghost use Rattle.cr_formula_bound.specs.Values.{TellsFormula};

    ghost tells = { λ b says name file answer. TellsFormula (form_of b.formula.now) b.input.items b.limits file answer };

    ghost asks = { λ _. false };

    ghost one_answer = { λ b says name file holds fails. fails holds };

    fn uses_judge(&self) -> bool {
        false
    }

    fn ask<J: Judge>(&self, alloc: Global, judge: &mut J, _name: &str, file: &[u8]) -> Answer {
        let mut run = FileEnd::unasked();
        value_of(self.formula, self, alloc, judge, file, &mut run)
    }
}

// How a file's run within limits ends, as the law left it, or by a run.
fn end_at(
    alloc: Global,
    file: &[u8],
    limits: Limits,
    runs: Option<&LastRun>,
) -> Result<Option<Ended>, NoMemory>
    ensures { IfOk result (EndsAs (ComesToEnd limits file.now)) }
{
    match left_at(file, limits, runs) {
        Some(end) => Ok(Some(end)),
        None => end_of(alloc, file, limits),
    }
}

fn left_at(file: &[u8], limits: Limits, runs: Option<&LastRun>) -> Option<Ended>
    ensures { IfSome result (λ end. ComesToEnd limits file.now end.status end.output) }
{
    runs?.take(limits, file)
}

fn shared<Q: Question + Sync>(_question: &Q) {}

/// Threads may share a bound formula.
pub fn is_shared(bound: &Bound<'_>) {
    shared(bound);
}
