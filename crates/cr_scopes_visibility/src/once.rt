//! Laws of names that are told once. The program calls none of these functions.
ghost use Rattle.cr_scopes_visibility.specs.Once.Laws.{NamesAreToldOnce, TokensAreToldWithinBounds, WhatIsVisibleIsMeant};

/// A name is told no oftener than nodes lead to it.
pub fn names_are_told_once()
    ensures { NamesAreToldOnce }
{}

/// So is a token that is declared.
pub fn tokens_are_told_within_bounds()
    ensures { TokensAreToldWithinBounds }
{}

/// What is visible where an identifier without linkage is named is its declaration.
pub fn visible_is_meant()
    ensures { WhatIsVisibleIsMeant }
{}
