//! Laws of declared functions. The program calls none of these functions.
ghost use Rattle.cr_check_signatures.specs.Functions.Laws.{CompatibleAreAlike, DeclarationsAreAlike, DeclarationsAreLinked, FunctionsAreAlike, FunctionsAreDefinedOnce, FunctionsAreLinked, LibraryHasItsTypes};

/// Compatible types have one outline.
pub fn compatible_are_alike()
    ensures { CompatibleAreAlike }
{}

/// A declaration with linkage is judged by the earlier ones of its name.
pub fn declarations_are_linked()
    ensures { DeclarationsAreLinked }
{}

/// What declares a function has linkage.
pub fn functions_are_linked()
    ensures { FunctionsAreLinked }
{}

/// A function with the name of one of the library's has its type.
pub fn library_has_its_types()
    ensures { LibraryHasItsTypes }
{}

/// A declaration with linkage has the outline of the one before it.
pub fn declarations_are_alike()
    ensures { DeclarationsAreAlike }
{}

/// Of the declarations of a function one at most has a body.
pub fn functions_are_defined_once()
    ensures { FunctionsAreDefinedOnce }
{}

/// The declarations of a function have one outline.
pub fn functions_are_alike()
    ensures { FunctionsAreAlike }
{}
