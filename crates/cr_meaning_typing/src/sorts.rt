//! What a reader expects of the expressions of a unit. The program calls none of these functions.
ghost use Rattle.cr_meaning_typing.specs.Sorts.Founded.{ExpressionsAreGood};

/// Of all expressions of a unit that a run may reach, in one table.
pub fn expressions_are_good()
    ensures { ExpressionsAreGood }
{}
