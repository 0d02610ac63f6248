// Laws of typings: each is the contract of a function that does nothing.
ghost use Rattle.cr_check_unit.specs.Laws.{OneTyping, SameReadings, SameScenes, SameBreaks, SameUnitBreaks, OneFirst};

/// A law: a unit has one typing at the most, in whatever table its types stand.
pub fn one_typing()
    ensures typing { OneTyping }
    ensures readings { SameReadings }
    ensures scenes { SameScenes }
{}

/// A law: in whatever table the types of a unit stand, it breaks the same constraints, and the same one comes first.
pub fn one_first()
    ensures breaks { SameBreaks }
    ensures whole { SameUnitBreaks }
    ensures first { OneFirst }
{}
