//! What a reader expects of the names of a file's typed unit. The program calls none of these functions.
ghost use Rattle.cr_meaning_references.specs.Told.Laws as laws;

/// Each name finds a declaration before it, which declares an ordinary identifier.
pub fn names_are_found()
    ensures { laws.NamesAreFound }
{}

/// Each tag finds one that is declared.
pub fn tags_are_found()
    ensures { laws.TagsAreFound }
{}

/// So little is asked still of what names are.
pub fn all_are_found()
    ensures { laws.AllAreFound }
{}

/// Each constant has a value.
pub fn constants_have_values()
    ensures { laws.ConstantsHaveValues }
{}
