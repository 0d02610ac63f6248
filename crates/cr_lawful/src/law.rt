// The law of programs.
ghost use Rattle.std.specs.Prelude.{◌≡◌, true, false};
ghost use Rattle.cr_cursor.specs.declared.law.Reason.{Reason};
ghost use Rattle.cr_tokens.specs.Tokens.{Tokenizes};
ghost use Rattle.cr_lawful.specs.Lawful.{IsLawful, IsReason, IsTypedUnit, RefusesFor, Rules, limits_of};
ghost use Rattle.cr_lawful.specs.Looks.{HasLookedThrough, Looks};

use crate::last_run::{LastRun, leave_run};
use crate::reasons::run_ruling;
use crate::ruled::{RunLaw, ruled_by, ruled_by_tokens};
use cr_cursor::{Law, Reason, Ruling, Stop};
use cr_exec_outcome::outcome;
use cr_lawful_analysis::LastRead;
use cr_meaning::Limits;
use cr_tokens::Tokens;
use cr_typed::Typed;
use std::alloc::Global;

/// The law that a file is a program of the subset which runs without undefined behaviour: it parses (C11 6.5 to 6.9 without what the
/// subset leaves out), its names are known and declared once (6.2.1 to 6.2.3), it breaks no constraint, K1 to K43, and within the limits
/// its run ends, with no case of undefined behaviour, U1 to U16, and none of leaving the profile, N1 to N7.
#[derive(Clone, Copy)]
pub struct CLaw<'a> {
    pub limits: Limits,
    /// Where what was read of a lawful file is left.
    pub last: Option<&'a LastRead>,
    /// Where it is left how the run of a lawful file ended.
    pub runs: Option<&'a LastRun>,
}

impl<'a> CLaw<'a> {
    /// The law with runs of so many steps; the other limits are those of the profile.
    pub fn with_steps(steps: u64, last: Option<&'a LastRead>) -> CLaw<'a>
        ensures limits { result.limits ≡ limits_of steps }
        ensures last { result.last ≡ last.entry }
    {
        CLaw {
            limits: Limits {
                steps,
                depth: 256,
                cells: 1_048_576,
                output: 65_536,
            },
            last,
            runs: None,
        }
    }

    /// The same law, which leaves there how the run of each lawful file ended.
    pub fn leaving_runs(self, runs: &'a LastRun) -> CLaw<'a>
        ensures { result.limits ≡ self.entry.limits }
    {
        CLaw {
            limits: self.limits,
            last: self.last,
            runs: Some(runs),
        }
    }
}

impl<'a> Law for CLaw<'a> {
    ghost use Rattle.cr_lawful.specs.Lawful.{IsLawful, IsReason};

    ghost lawful = { λ law file. IsLawful law.limits file };

    ghost reasons = { λ law file reason. IsReason law.limits file reason };

    fn rule<S: Stop>(&self, alloc: Global, file: &[u8], stop: &mut S) -> Ruling
        requires { S.raised stop.old ≡ false }
        ensures lawful { result ≡ Ruling.Lawful → IsLawful self.now.limits file.now }
        ensures unlawful { (reason : Reason) → result ≡ Ruling.Unlawful reason → IsLawful self.now.limits file.now → ⊥ }
        // It is the first reason: that of the tokens, then of the parser, then of the names, then of the types, then of the run.
        ensures reason { (reason : Reason) → result ≡ Ruling.Unlawful reason → IsReason self.now.limits file.now reason }
        // Where there is one, it is that one.
        ensures exact { (reason : Reason) → IsReason self.now.limits file.now reason → RefusesFor reason result }
        ensures stopped { result ≡ Ruling.Stopped → S.raised stop.new ≡ true }
        ensures held { S.held stop.new ≡ S.held stop.old }
        // A run that came to its end was always soon to be stopped.
        ensures looked { result ≡ Ruling.Lawful → HasLookedThrough self.now.limits file.now (S.looks stop.old) (S.looks stop.new) }
    {
        ruled_by(alloc, file, self, self.last, stop)
    }

    fn rule_on_tokens<S: Stop>(
        &self,
        alloc: Global,
        file: &[u8],
        tokens: &Tokens,
        stop: &mut S,
    ) -> Ruling
        requires unstopped { S.raised stop.old ≡ false }
        requires tokens { Tokenizes file.now tokens.now.list.items }
        ensures lawful { result ≡ Ruling.Lawful → IsLawful self.now.limits file.now }
        ensures unlawful { (reason : Reason) → result ≡ Ruling.Unlawful reason → IsLawful self.now.limits file.now → ⊥ }
        // It is the first reason: that of the tokens, then of the parser, then of the names, then of the types, then of the run.
        ensures reason { (reason : Reason) → result ≡ Ruling.Unlawful reason → IsReason self.now.limits file.now reason }
        // Where there is one, it is that one.
        ensures exact { (reason : Reason) → IsReason self.now.limits file.now reason → RefusesFor reason result }
        ensures stopped { result ≡ Ruling.Stopped → S.raised stop.new ≡ true }
        ensures held { S.held stop.new ≡ S.held stop.old }
        // A run that came to its end was always soon to be stopped.
        ensures looked { result ≡ Ruling.Lawful → HasLookedThrough self.now.limits file.now (S.looks stop.old) (S.looks stop.new) }
    {
        ruled_by_tokens(alloc, file, tokens, self, self.last, stop)
    }
}

impl<'a> RunLaw for CLaw<'a> {
    ghost limits = { λ law. law.limits };

    ghost rules = { λ law file raised ruling. Rules law.limits file raised ruling };

    fn ruled_on_run<S: Stop>(
        &self,
        alloc: Global,
        file: &[u8],
        typed: &Typed,
        stop: &mut S,
    ) -> Ruling {
        let run = outcome(alloc, typed, self.limits, stop);
        let ruling = run_ruling(file, typed, &run);
        leave_run(alloc, file, self.limits, self.runs, run);
        ruling
    }
}
