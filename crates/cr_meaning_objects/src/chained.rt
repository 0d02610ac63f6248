//! Laws of the declarations of a function of a file's unit. The program calls none of these functions.
ghost use Rattle.cr_meaning_objects.specs.Chained.Laws as laws;

/// What is declared as an object or a function has a known type.
pub fn values_are_known()
    ensures { laws.ValuesAreKnown }
{}

/// What declares a function declares one before it too.
pub fn declarations_follow()
    ensures { laws.DeclarationsFollow }
{}

/// A definition declares a function.
pub fn definitions_declare_functions()
    ensures { laws.DefinitionsDeclareFunctions }
{}

/// Of the declarations of a function one at most is a definition.
pub fn functions_have_one_body()
    ensures { laws.FunctionsHaveOneBody }
{}

/// All declarations of a function have one outline.
pub fn functions_are_of_one_outline()
    ensures { laws.FunctionsAreOfOneOutline }
{}
