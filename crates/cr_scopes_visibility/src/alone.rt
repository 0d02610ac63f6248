//! Laws of names. The program calls none of these functions.
ghost use Rattle.cr_scopes_visibility.specs.Alone.Laws.{AloneIsFirst, AloneIsSeen};

/// An identifier that is declared without linkage is the first declaration of its entity.
pub fn alone_is_first()
    ensures { AloneIsFirst }
{}

/// What stands for an identifier without linkage is used where its declaration is in scope.
pub fn alone_is_seen()
    ensures { AloneIsSeen }
{}
