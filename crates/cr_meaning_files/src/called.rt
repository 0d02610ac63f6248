//! What a reader expects of the calls of a file's unit. The program calls none of these functions.
ghost use Rattle.cr_meaning_files.specs.Meant as meant;

/// A called name that stands for a function sees the declarator of a declaration or a definition, which declares one.
pub fn calls_see_declarations()
    ensures { meant.CallsSeeDeclarations }
{}

/// A call of a function of the unit's own means the definition that its name has in the typed unit.
pub fn calls_mean_definitions()
    ensures { meant.CallsMeanDefinitions }
{}
