//! Laws of the parameters of a unit's definitions. The program calls none of these functions.
ghost use Rattle.cr_meaning_objects.specs.Parameters.Laws as laws;

/// The objects of a definition's parameters have the types of its function's list.
pub fn parameters_have_their_types()
    ensures { laws.ParametersHaveTheirTypes }
{}

/// What a parameter of a definition declares is an automatic object of a complete type.
pub fn parameters_are_objects()
    ensures { laws.ParametersAreObjects }
{}
