// A law of formulas: it is the contract of a function that does nothing.
ghost use Rattle.cr_formula.specs.Laws.{SpellsOneFormula};

/// A word spells one formula at most.
pub fn a_word_spells_one_formula()
    ensures { SpellsOneFormula }
{}
