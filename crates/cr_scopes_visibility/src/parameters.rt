//! What a reader expects of parameters. The program doesn't call these functions.
ghost use Rattle.cr_scopes_visibility.specs.Parameters.Laws.{ListsStayInside, ParametersStayInside};

/// What is declared in the list of parameters of a definition isn't in scope outside of that list and of the body.
pub fn parameters_stay_inside()
    ensures { ParametersStayInside }
{}

/// What is declared in the list of parameters of a declarator that defines no function isn't in scope outside of that list.
pub fn lists_stay_inside()
    ensures { ListsStayInside }
{}
