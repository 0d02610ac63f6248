//! What a reader expects of declared identifiers. The program calls none of these functions.
ghost use Rattle.cr_meaning_declarations.specs.Names.Laws.{FirstDeclaresNothing, TokensAreDeclaredOnce};

/// The first node of a unit declares nothing.
pub fn first_declares_nothing()
    ensures { FirstDeclaresNothing }
{}

/// A token is the identifier that one node declares, at the most.
pub fn tokens_are_declared_once()
    ensures { TokensAreDeclaredOnce }
{}
