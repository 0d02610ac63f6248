// The law of programs whose run reaches a label.
ghost use Rattle.std.specs.Prelude.{◌≡◌, ℕ, true, false};
ghost use Rattle.cr_cursor.specs.declared.law.Reason.{Reason};
ghost use Rattle.cr_tokens.specs.Tokens.{Tokenizes};
ghost use Rattle.cr_lawful.specs.Lawful.{RefusesFor};
ghost use Rattle.cr_lawful.specs.Looks.{HasLookedThrough};
ghost use Rattle.cr_reached.specs.Reached.{IsLawfulReached, IsReachReason, ReachRules, ended_reached};

use crate::labels::first_label;
use crate::outcome::outcome_reached;
use cr_cursor::{Law, Reason, Ruling, Stop};
use cr_lawful::{
    CLaw, LastRun, RunLaw, a_file_has_one_reason, leave_run, ruled_by, ruled_by_tokens, run_ruling,
};
use cr_lawful_analysis::LastRead;
use cr_meaning::{Limits, Run};
use cr_order::ended_in_order;
use cr_syntax::number_of;
use cr_tokens::Tokens;
use cr_typed::Typed;
use std::alloc::Global;

/// The number of the case: the label isn't reached, or its statement's own expression isn't evaluated whole.
pub const LEFT_UNREACHED: u8 = 9;

/// The law that a file is lawful by `CLaw`, or by `OrderLaw` where that is asked for, and that in its run a statement with a label is
/// reached and its own expression evaluated whole (C11 6.8.1, 5.1.2.3p2). Where it isn't, that is N9.
#[derive(Clone, Copy)]
pub struct ReachedLaw<'a> {
    pub limits: Limits,
    /// The label.
    pub name: &'a [u8],
    /// Whether the run may hang on no order of operands.
    pub any_order: bool,
    /// Where what was read of a lawful file is left.
    pub last: Option<&'a LastRead>,
    /// Where it is left how the run of a lawful file ended.
    pub runs: Option<&'a LastRun>,
}

impl<'a> ReachedLaw<'a> {
    /// Within the limits of another law, and with its places.
    pub fn beside(law: &CLaw<'a>, name: &'a [u8], any_order: bool) -> ReachedLaw<'a>
        ensures limits { result.limits ≡ law.now.limits }
        ensures name { result.name.now ≡ name.entry.now }
        ensures any_order { result.any_order ≡ any_order }
    {
        ReachedLaw {
            limits: law.limits,
            name,
            any_order,
            last: law.last,
            runs: law.runs,
        }
    }
}

impl<'a> Law for ReachedLaw<'a> {
    ghost use Rattle.cr_reached.specs.Reached.{IsLawfulReached, IsReachReason};

    ghost lawful = { λ law file. IsLawfulReached law.any_order law.limits law.name.now file };

    ghost reasons = { λ law file reason. IsReachReason law.any_order law.limits law.name.now file reason };

    fn rule<S: Stop>(&self, alloc: Global, file: &[u8], stop: &mut S) -> Ruling
        requires { S.raised stop.old ≡ false }
        ensures lawful { result ≡ Ruling.Lawful → IsLawfulReached self.now.any_order self.now.limits self.now.name.now file.now }
        ensures unlawful { (reason : Reason) → result ≡ Ruling.Unlawful reason → IsLawfulReached self.now.any_order self.now.limits self.now.name.now file.now → ⊥ }
        // It is the reason of the other law, or else N9.
        ensures reason { (reason : Reason) → result ≡ Ruling.Unlawful reason → IsReachReason self.now.any_order self.now.limits self.now.name.now file.now reason }
        // Where there is one, it is that one.
        ensures exact { (reason : Reason) → IsReachReason self.now.any_order self.now.limits self.now.name.now file.now reason → RefusesFor reason result }
        ensures stopped { result ≡ Ruling.Stopped → S.raised stop.new ≡ true }
        ensures held { S.held stop.new ≡ S.held stop.old }
        // A run that came to its end was always soon to be stopped.
        ensures looked { result ≡ Ruling.Lawful → HasLookedThrough self.now.limits file.now (S.looks stop.old) (S.looks stop.new) }
    {
        a_file_has_one_reason();
        ruled_by(alloc, file, self, self.last, stop)
    }

    fn rule_on_tokens<S: Stop>(
        &self,
        alloc: Global,
        file: &[u8],
        tokens: &Tokens,
        stop: &mut S,
    ) -> Ruling
        requires unstopped { S.raised stop.old ≡ false }
        requires tokens { Tokenizes file.now tokens.now.list.items }
        ensures lawful { result ≡ Ruling.Lawful → IsLawfulReached self.now.any_order self.now.limits self.now.name.now file.now }
        ensures unlawful { (reason : Reason) → result ≡ Ruling.Unlawful reason → IsLawfulReached self.now.any_order self.now.limits self.now.name.now file.now → ⊥ }
        // It is the reason of the other law, or else N9.
        ensures reason { (reason : Reason) → result ≡ Ruling.Unlawful reason → IsReachReason self.now.any_order self.now.limits self.now.name.now file.now reason }
        // Where there is one, it is that one.
        ensures exact { (reason : Reason) → IsReachReason self.now.any_order self.now.limits self.now.name.now file.now reason → RefusesFor reason result }
        ensures stopped { result ≡ Ruling.Stopped → S.raised stop.new ≡ true }
        ensures held { S.held stop.new ≡ S.held stop.old }
        // A run that came to its end was always soon to be stopped.
        ensures looked { result ≡ Ruling.Lawful → HasLookedThrough self.now.limits file.now (S.looks stop.old) (S.looks stop.new) }
    {
        a_file_has_one_reason();
        ruled_by_tokens(alloc, file, tokens, self, self.last, stop)
    }
}

/// A run that ended leaves the profile at the label, where that wasn't reached; another comes to what it came to.
fn ended_reached(run: Run, reached: bool, label: u32) -> Run
    ensures { result ≡ ended_reached run reached label }
{
    match (run, reached) {
        (Run::Ended { .. }, false) => Run::Left(LEFT_UNREACHED, label),
        (run, _) => run,
    }
}

impl<'a> RunLaw for ReachedLaw<'a> {
    ghost limits = { λ law. law.limits };

    ghost rules = { λ law file raised ruling. ReachRules law.any_order law.limits law.name.now file raised ruling };

    fn ruled_on_run<S: Stop>(
        &self,
        alloc: Global,
        file: &[u8],
        typed: &Typed,
        stop: &mut S,
    ) -> Ruling {
        let Ok(label) = number_of(first_label(typed, self.name)) else {
            return Ruling::NoMemory;
        };
        let (run, loose, reached) = outcome_reached(
            alloc,
            typed,
            self.limits,
            self.any_order,
            self.name,
            stop,
        );
        let run = ended_reached(ended_in_order(run, loose), reached, label);
        let ruling = run_ruling(file, typed, &run);
        leave_run(alloc, file, self.limits, self.runs, run);
        ruling
    }
}
