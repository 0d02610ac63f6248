//! What a reader expects of the meaning of a unit. The program calls none of these functions.
ghost use Rattle.cr_meaning_operations.specs.Laws.{OneOutcome};

/// Within the same limits a unit comes to one end at most.
pub fn one_outcome()
    ensures { OneOutcome }
{}
