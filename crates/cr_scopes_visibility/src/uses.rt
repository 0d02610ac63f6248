//! What a reader expects of a name that is used. The program doesn't call this function.
ghost use Rattle.cr_scopes_visibility.specs.Uses.Laws.{UsesFindDeclarations};

/// A name that is used sees a declaration of its own spelling, which is told before it.
pub fn uses_find_declarations()
    ensures { UsesFindDeclarations }
{}
