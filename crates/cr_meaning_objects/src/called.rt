//! Laws of calls. The program calls none of these functions.
ghost use Rattle.cr_meaning_objects.specs.Called.Laws as laws;

/// What a call sees has the result and the parameters of the definition of its function.
pub fn definitions_fit_calls()
    ensures { laws.DefinitionsFitCalls }
{}

/// The objects of the definition's parameters are as the call takes them.
pub fn parameters_fit_calls()
    ensures { laws.ParametersFitCalls }
{}
