// The law of programs that run alike in any order.
ghost use Rattle.std.specs.Prelude.{◌≡◌, true, false};
ghost use Rattle.cr_cursor.specs.declared.law.Reason.{Reason};
ghost use Rattle.cr_tokens.specs.Tokens.{Tokenizes};
ghost use Rattle.cr_lawful.specs.Lawful.{RefusesFor};
ghost use Rattle.cr_lawful.specs.Looks.{HasLookedThrough};
ghost use Rattle.cr_order.specs.Orders.{IsLawfulInOrder, IsOrderReason, OrderRules};

use crate::judged::outcome_judged;
use crate::loose::ended_in_order;
use cr_cursor::{Law, Reason, Ruling, Stop};
use cr_lawful::{
    CLaw, LastRun, RunLaw, a_file_has_one_reason, leave_run, ruled_by, ruled_by_tokens, run_ruling,
};
use cr_lawful_analysis::LastRead;
use cr_meaning::Limits;
use cr_tokens::Tokens;
use cr_typed::Typed;
use std::alloc::Global;

/// The law that a file is lawful by `CLaw`, and that its run doesn't hang on the order in which operands, arguments and initialisers are
/// evaluated (C11 6.5p3, 6.5.2.2p10, 6.7.9p23): none of one evaluation sees what another does. Where it does, that is N8.
#[derive(Clone, Copy)]
pub struct OrderLaw<'a> {
    pub limits: Limits,
    /// Where what was read of a lawful file is left.
    pub last: Option<&'a LastRead>,
    /// Where it is left how the run of a lawful file ended.
    pub runs: Option<&'a LastRun>,
}

impl<'a> OrderLaw<'a> {
    /// Within the limits of another law, and with its places.
    pub fn beside(law: &CLaw<'a>) -> OrderLaw<'a>
        ensures { result.limits ≡ law.now.limits }
    {
        OrderLaw {
            limits: law.limits,
            last: law.last,
            runs: law.runs,
        }
    }
}

impl<'a> Law for OrderLaw<'a> {
    ghost use Rattle.cr_order.specs.Orders.{IsLawfulInOrder, IsOrderReason};

    ghost lawful = { λ law file. IsLawfulInOrder law.limits file };

    ghost reasons = { λ law file reason. IsOrderReason law.limits file reason };

    fn rule<S: Stop>(&self, alloc: Global, file: &[u8], stop: &mut S) -> Ruling
        requires { S.raised stop.old ≡ false }
        ensures lawful { result ≡ Ruling.Lawful → IsLawfulInOrder self.now.limits file.now }
        ensures unlawful { (reason : Reason) → result ≡ Ruling.Unlawful reason → IsLawfulInOrder self.now.limits file.now → ⊥ }
        // It is the reason of `CLaw`, or else N8.
        ensures reason { (reason : Reason) → result ≡ Ruling.Unlawful reason → IsOrderReason self.now.limits file.now reason }
        // Where there is one, it is that one.
        ensures exact { (reason : Reason) → IsOrderReason self.now.limits file.now reason → RefusesFor reason result }
        ensures stopped { result ≡ Ruling.Stopped → S.raised stop.new ≡ true }
        ensures held { S.held stop.new ≡ S.held stop.old }
        // A run that came to its end was always soon to be stopped.
        ensures looked { result ≡ Ruling.Lawful → HasLookedThrough self.now.limits file.now (S.looks stop.old) (S.looks stop.new) }
    {
        a_file_has_one_reason();
        ruled_by(alloc, file, self, self.last, stop)
    }

    fn rule_on_tokens<S: Stop>(
        &self,
        alloc: Global,
        file: &[u8],
        tokens: &Tokens,
        stop: &mut S,
    ) -> Ruling
        requires unstopped { S.raised stop.old ≡ false }
        requires tokens { Tokenizes file.now tokens.now.list.items }
        ensures lawful { result ≡ Ruling.Lawful → IsLawfulInOrder self.now.limits file.now }
        ensures unlawful { (reason : Reason) → result ≡ Ruling.Unlawful reason → IsLawfulInOrder self.now.limits file.now → ⊥ }
        // It is the reason of `CLaw`, or else N8.
        ensures reason { (reason : Reason) → result ≡ Ruling.Unlawful reason → IsOrderReason self.now.limits file.now reason }
        // Where there is one, it is that one.
        ensures exact { (reason : Reason) → IsOrderReason self.now.limits file.now reason → RefusesFor reason result }
        ensures stopped { result ≡ Ruling.Stopped → S.raised stop.new ≡ true }
        ensures held { S.held stop.new ≡ S.held stop.old }
        // A run that came to its end was always soon to be stopped.
        ensures looked { result ≡ Ruling.Lawful → HasLookedThrough self.now.limits file.now (S.looks stop.old) (S.looks stop.new) }
    {
        a_file_has_one_reason();
        ruled_by_tokens(alloc, file, tokens, self, self.last, stop)
    }
}

impl<'a> RunLaw for OrderLaw<'a> {
    ghost limits = { λ law. law.limits };

    ghost rules = { λ law file raised ruling. OrderRules law.limits file raised ruling };

    fn ruled_on_run<S: Stop>(
        &self,
        alloc: Global,
        file: &[u8],
        typed: &Typed,
        stop: &mut S,
    ) -> Ruling {
        let (run, loose) = outcome_judged(alloc, typed, self.limits, stop);
        let run = ended_in_order(run, loose);
        let ruling = run_ruling(file, typed, &run);
        leave_run(alloc, file, self.limits, self.runs, run);
        ruling
    }
}
