//! What a reader expects of a name that is used for a function. The program doesn't call this function.
ghost use Rattle.cr_scopes_linkage.specs.Meant.Laws.{UsesStandForDeclarations};

/// A name that sees a declaration of a function stands for the entity of that declaration.
pub fn uses_stand_for_declarations()
    ensures { UsesStandForDeclarations }
{}
