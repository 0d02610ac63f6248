//! What a reader expects of the scopes that events make. The program doesn't call these functions.
ghost use Rattle.cr_scopes_typedef_names.specs.Effects.Laws.{TypesAreTypedefs, VisibleDecides, SpellingsAreNames};

/// A name is a type in the scopes that events make where the latest declaration that is in scope says `typedef`.
pub fn types_are_typedefs()
    ensures { TypesAreTypedefs }
{}

/// Where a token is named first, what is visible there decides whether it is a type.
pub fn visible_decides()
    ensures { VisibleDecides }
{}

/// Tokens of a file have one name where they have one spelling.
pub fn spellings_are_names()
    ensures { SpellingsAreNames }
{}
