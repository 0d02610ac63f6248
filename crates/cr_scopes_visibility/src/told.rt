//! What a reader expects of the uses of names. The program doesn't call this function.
ghost use Rattle.cr_scopes_visibility.specs.Told.Laws.{UsesAreTold};

/// Each node that uses a name is told so, behind the declarations that it may see.
pub fn uses_are_told()
    ensures { UsesAreTold }
{}
