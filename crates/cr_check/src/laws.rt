// Laws of the whole check: each is the contract of a function that does nothing.
ghost use Rattle.cr_check.specs.Laws.{HasNoFault, OneFault, OneNameFault};

/// A law: a unit that is sound has no fault, by whatever it is checked: no check of it, nor of a unit with the same tokens, nodes and
/// external declarations, finds a fault.
pub fn a_sound_unit_has_no_fault()
    ensures { HasNoFault }
{}

/// A law: a unit has one first fault of its names at most, and one of its types and constraints, by whatever it is checked.
pub fn a_unit_has_one_first_fault()
    ensures names { OneNameFault }
    ensures types { OneFault }
{}
