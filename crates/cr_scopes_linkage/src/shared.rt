//! Laws of names. The program calls none of these functions.
ghost use Rattle.cr_scopes_linkage.specs.Shared.Laws.{AloneIsOnly, SortsAreApart, EventsHaveOrigins};

/// An identifier that is declared without linkage shares its entity with no other declaration.
pub fn alone_is_only()
    ensures { AloneIsOnly }
{}

/// Objects and functions, type names and tags are declared by entities of their own.
pub fn sorts_are_apart()
    ensures { SortsAreApart }
{}

/// What a unit's events tell is told by its nodes.
pub fn events_have_origins()
    ensures { EventsHaveOrigins }
{}
