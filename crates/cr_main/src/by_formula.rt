// A formula that a run asks.

use cr_formula::Formula;
use cr_formula_bound::Bound;
use cr_lawful::LastRun;
use cr_main_task::Asking;
use cr_meaning::Limits;
use cr_outside::{Answer, Judge, NoMemory, Question};
use std::alloc::Global;

/// A formula that a run asks within limits: lawful bytes that are reduced are its input.
#[derive(Drop)]
pub struct ByFormula<'a> {
    pub formula: &'a Formula,
    pub limits: Limits,
    /// Where the law leaves how the run of the last lawful file ended, so that it isn't run again.
    pub runs: Option<&'a LastRun>,
}

impl<'a> Asking for ByFormula<'a> {
    ghost use Rattle.std.specs.Prelude.{ℕ, List, false};
    ghost use Rattle.cr_formula.specs.Forms.{Form, form_of};
    ghost use Rattle.cr_formula_bound.specs.Values.{TellsFormula};
    ghost use Rattle.cr_lawful.specs.Lawful.{IsLawful};
    ghost use Rattle.cr_meaning.specs.declared.run.Limits.{Limits};

    type Bound = Bound<'a>;

    ghost Key = { Form × Limits × List ℕ };

    ghost asks = { λ _. false };

    ghost key = { λ asking bytes. (form_of asking.formula.now, asking.limits, bytes) };

    ghost tells = { λ key says name file answer. TellsFormula key.0 key.2 key.1 file answer };

    ghost binds = { λ asking bytes. IsLawful asking.limits bytes };

    ghost bound_asks = { λ _. false };

    ghost bound_key = { λ bound. (form_of bound.formula.now, bound.limits, bound.input.items) };

    ghost one_answer = { λ key says name file holds fails. fails holds };

    fn bind(&self, alloc: Global, bytes: &[u8]) -> Result<Bound<'a>, NoMemory> {
        let input = match bytes.to_vec(alloc) {
            Ok(input) => input,
            Err(fault) => return Err(fault),
        };
        Bound::bind(alloc, self.formula, self.limits, input, self.runs)
    }

    fn uses_judge(_bound: &Bound<'a>) -> bool {
        false
    }

    fn ask<J: Judge>(
        bound: &Bound<'a>,
        alloc: Global,
        judge: &mut J,
        name: &str,
        file: &[u8],
    ) -> Answer {
        bound.ask(alloc, judge, name, file)
    }
}
