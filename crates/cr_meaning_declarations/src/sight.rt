//! What a reader expects of the names of a file's typed unit. The program doesn't call this function.
ghost use Rattle.cr_meaning_declarations.specs.Sight.Laws.{NamesStandInScopes};

/// A name of an automatic object stands in each block and each `for` in which the object is declared.
pub fn names_stand_in_scopes()
    ensures { NamesStandInScopes }
{}
