// A law of typed units: it is the contract of a function that does nothing.
ghost use Rattle.cr_typed_unit.specs.Laws.{OneTypedUnit};

/// A law: a unit with its names has one typed unit at most, by whatever it is checked.
pub fn one_typed_unit()
    ensures { OneTypedUnit }
{}
