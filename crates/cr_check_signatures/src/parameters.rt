//! What a reader expects of parameters. The program doesn't call this function.
ghost use Rattle.cr_check_signatures.specs.Parameters.Laws.{ParametersAreListed};

/// What declares a function has the types of the parameters in its list.
pub fn parameters_are_listed()
    ensures { ParametersAreListed }
{}
