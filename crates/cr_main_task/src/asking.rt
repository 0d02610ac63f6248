// What a run asks, before the bytes that are reduced are known.
ghost use Rattle.std.specs.Prelude.{◌≡◌, ◌≢◌, ◌≤◌, ℕ, Bool, true, false, List, IfOk};
ghost use Rattle.cr_outside.specs.Faults.{Rose};
ghost use Rattle.cr_outside.specs.Question.{AnswersAsTold, AsksOnce, CountsOnce, Says};

use cr_outside::{Answer, Judge, NoMemory, Question};
use std::alloc::Global;

/// What a run asks about each file, once it is bound to the bytes that are reduced: a formula is a question beside them, and a test is the
/// same question whatever they are.
pub trait Asking {
    /// It, bound to bytes.
    type Bound: Drop;

    /// What the told answers follow from.
    ghost Key: { Type 0 };

    /// Whether it uses the judge.
    ghost asks: { Self → Bool };

    /// Its key, where these bytes are reduced.
    ghost key: { Self → List ℕ → Self.Key };

    /// The told answer about a file of a name.
    ghost tells: { Self.Key → Says → List ℕ → List ℕ → Bool → Type 0 };

    /// It can be bound to these bytes.
    ghost binds: { Self → List ℕ → Type 0 };

    ghost bound_asks: { Self.Bound → Bool };

    ghost bound_key: { Self.Bound → Self.Key };

    /// Binds it.
    fn bind(&self, alloc: Global, bytes: &[u8]) -> Result<Self::Bound, NoMemory>
        requires { binds self.now bytes.now }
        ensures asks { IfOk result (λ bound. bound_asks bound ≡ asks self.now) }
        ensures key { IfOk result (λ bound. bound_key bound ≡ key self.now bytes.now) };

    /// Whether it uses the judge.
    fn uses_judge(bound: &Self::Bound) -> bool
        ensures { result ≡ bound_asks bound.now };

    /// Asks about `file`, which a test sees under the name `name`.
    fn ask<J: Judge>(
        bound: &Self::Bound,
        alloc: Global,
        judge: &mut J,
        name: &str,
        file: &[u8],
    ) -> Answer
        ensures told { AnswersAsTold (bound_asks bound.now) (tells (bound_key bound.now) (J.says (J.key judge.old)) name.now file.now) result }
        ensures once { bound_asks bound.now ≡ true → AsksOnce (J.calls judge.old) (J.calls judge.new) name.now file.now result }
        ensures counted { bound_asks bound.now ≡ true → CountsOnce (J.asked judge.old) (J.asked judge.new) result }
        ensures silent { bound_asks bound.now ≡ false → judge.new ≡ judge.old }
        ensures unfailing { bound_asks bound.now ≡ false → result ≢ Answer.Failed }
        ensures key { J.key judge.new ≡ J.key judge.old }
        ensures later { J.faults judge.old ≤ J.faults judge.new }
        ensures failed { result ≡ Answer.Failed → Rose (J.faults judge.old) (J.faults judge.new) };

    /// At most one answer is told.
    ghost one_answer: { (key : Self.Key) (says : Says) (name file : List ℕ) → tells key says name file true → tells key says name file false → ⊥ };
}

/// The question of a reduction: what a run asks, bound to its bytes.
#[derive(Drop)]
pub struct Asked<A: Asking> {
    bound: A::Bound,
}

impl<A: Asking> Asked<A> {
    /// Binds what a run asks to these bytes.
    pub fn bind(alloc: Global, asking: &A, bytes: &[u8]) -> Result<Asked<A>, NoMemory>
        requires { A.binds asking.now bytes.now }
        ensures asks { IfOk result (λ question. A.bound_asks question.bound ≡ A.asks asking.now) }
        ensures key { IfOk result (λ question. A.bound_key question.bound ≡ A.key asking.now bytes.now) }
    {
        match asking.bind(alloc, bytes) {
            Ok(bound) => Ok(Asked { bound }),
            Err(fault) => Err(fault),
        }
    }
}

impl<A: Asking> Question for Asked<A> {
    ghost tells = { λ question. A.tells (A.bound_key question.bound) };

    ghost asks = { λ question. A.bound_asks question.bound };

    ghost one_answer = { λ question. A.one_answer (A.bound_key question.bound) };

    fn uses_judge(&self) -> bool {
        A::uses_judge(&self.bound)
    }

    fn ask<J: Judge>(&self, alloc: Global, judge: &mut J, name: &str, file: &[u8]) -> Answer {
        A::ask(&self.bound, alloc, judge, name, file)
    }
}

/// A question that is the same whatever bytes are reduced.
#[derive(Drop)]
pub struct Unbound<'a, Q> {
    pub question: &'a Q,
}

impl<'a, Q: Question + Sync> Asking for Unbound<'a, Q> {
    type Bound = &'a Q;

    ghost Key = { Q };

    ghost asks = { λ one. Q.asks one.question.now };

    ghost key = { λ one bytes. one.question.now };

    ghost tells = { Q.tells };

    ghost binds = { λ one bytes. Unit {0} };

    ghost bound_asks = { λ bound. Q.asks bound.now };

    ghost bound_key = { λ bound. bound.now };

    ghost one_answer = { Q.one_answer };

    fn bind(&self, _alloc: Global, _bytes: &[u8]) -> Result<&'a Q, NoMemory> {
        Ok(self.question)
    }

    fn uses_judge(bound: &&'a Q) -> bool {
        bound.uses_judge()
    }

    fn ask<J: Judge>(
        bound: &&'a Q,
        alloc: Global,
        judge: &mut J,
        name: &str,
        file: &[u8],
    ) -> Answer {
        bound.ask(alloc, judge, name, file)
    }
}
