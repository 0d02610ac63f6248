//! What a reader expects of typedef names. The program doesn't call this function.
ghost use Rattle.cr_scopes_typedef_names.specs.Parsed.Laws.{TypedefNamesAreTypes};

/// Where the token of a typedef name is named first, its name is a type in the scopes that the events before it make.
pub fn typedef_names_are_types()
    ensures { TypedefNamesAreTypes }
{}
