//! What always holds of the reduction by told answers: each law is the clause of a function that does nothing.
ghost use Rattle.cr_reduce.specs.Laws.{AcceptsAFront, ForAnyJudge, GoesOnToTheSame, HasOneOutcome, HasOneReduction, ReductionsAreThere, ToldTrialsExclude};

use cr_cursor::{Law, Passes};
use cr_outside::Question;

/// By told answers no variant is both accepted and rejected.
pub fn told_trials_exclude_each_other<P: Passes, L: Law, Q: Question>(
    passes: &P,
    law: &L,
    question: &Q,
)
    ensures { ForAnyJudge (P.offers passes.now) (L.lawful law.now) (Q.asks question.now) (Q.tells question.now) ToldTrialsExclude }
{}

/// By told answers a reduction has one outcome at most: its file, what it accepted, its turns and why it ended.
pub fn a_told_reduction_has_one_outcome<P: Passes, L: Law, Q: Question>(
    passes: &P,
    law: &L,
    question: &Q,
)
    // from each state on
    ensures outcome { ForAnyJudge (P.offers passes.now) (L.lawful law.now) (Q.asks question.now) (Q.tells question.now) HasOneOutcome }

    // and so of each file
    ensures reduction { ForAnyJudge (P.offers passes.now) (L.lawful law.now) (Q.asks question.now) (Q.tells question.now) HasOneReduction }
{}

/// Where no lawful file is without an answer, and no file that has a size without an offer, no file that has one is without a reduction.
pub fn told_reductions_are_there<P: Passes, L: Law, Q: Question>(passes: &P, law: &L, question: &Q)
    ensures { ForAnyJudge (P.offers passes.now) (L.lawful law.now) (Q.asks question.now) (Q.tells question.now) ReductionsAreThere }
{}

/// Where a reduction that went on was cut short, what it accepted comes first in what the whole one accepts.
pub fn a_reduction_cut_short_accepts_a_front<P: Passes, L: Law, Q: Question>(
    passes: &P,
    law: &L,
    question: &Q,
)
    ensures { ForAnyJudge (P.offers passes.now) (L.lawful law.now) (Q.asks question.now) (Q.tells question.now) AcceptsAFront }
{}

/// A reduction that stopped behind what it had accepted goes on from there to the same outcome.
pub fn a_reduction_goes_on_to_the_same<P: Passes, L: Law, Q: Question>(
    passes: &P,
    law: &L,
    question: &Q,
)
    ensures { ForAnyJudge (P.offers passes.now) (L.lawful law.now) (Q.asks question.now) (Q.tells question.now) GoesOnToTheSame }
{}
