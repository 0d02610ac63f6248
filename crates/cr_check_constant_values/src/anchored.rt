//! Laws of the initialisers of objects of static duration. The program calls none of these functions.
ghost use Rattle.cr_check_constant_values.specs.Anchored.Laws.{InitialisersAreAnchored, OperandsAreAnchored};

/// What is made of constants and of constant addresses has operands that are.
pub fn operands_are_anchored()
    ensures { OperandsAreAnchored }
{}

/// What initialises an object of static duration is so.
pub fn initialisers_are_anchored()
    ensures { InitialisersAreAnchored }
{}
