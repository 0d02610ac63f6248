// A law of what is known of a unit: it is the contract of a function that does nothing.
ghost use Rattle.cr_check_surroundings.specs.Laws.{OneSurroundings};

/// What is known of a unit with its names is determined by them.
pub fn one_surroundings()
    ensures { OneSurroundings }
{}
