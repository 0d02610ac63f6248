//! What a reader expects of typedef names. The program doesn't call this function.
ghost use Rattle.cr_scopes_typedef_names.specs.Typedefs.Laws.{TypedefNamesSeeTypedefs};

/// What is visible at a typedef name is declared by a declaration that says `typedef`.
pub fn typedef_names_see_typedefs()
    ensures { TypedefNamesSeeTypedefs }
{}
