//! Laws of the names of functions. The program calls none of these functions.
ghost use Rattle.cr_scopes_linkage.specs.Functions.Laws.{DefinitionsAreTold, FunctionsShareEntities, ToldNamesHaveEntities};

/// Functions of one name are one.
pub fn functions_share_entities()
    ensures { FunctionsShareEntities }
{}

/// The name of each definition is told.
pub fn definitions_are_told()
    ensures { DefinitionsAreTold }
{}

/// Each name of a value has an entity.
pub fn told_names_have_entities()
    ensures { ToldNamesHaveEntities }
{}
