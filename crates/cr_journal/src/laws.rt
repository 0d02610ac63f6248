//! What always holds of kept reductions: the clause of a function that does nothing.
ghost use Rattle.cr_journal.specs.Laws.{AcceptedFollows};
ghost use Rattle.cr_reduce.specs.Laws.{ForAnyJudge};

use cr_cursor::{Law, Passes};
use cr_outside::Question;

/// What a reduction by told answers accepts first follows from its file: no row of its journal differs.
pub fn what_a_reduction_accepted_follows<P: Passes, L: Law, Q: Question>(
    passes: &P,
    law: &L,
    question: &Q,
)
    ensures { ForAnyJudge (P.offers passes.now) (L.lawful law.now) (Q.asks question.now) (Q.tells question.now) AcceptedFollows }
{}
