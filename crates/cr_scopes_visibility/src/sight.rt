//! A law of scopes. The program doesn't call this function.
ghost use Rattle.cr_scopes_visibility.specs.Sight.Laws.{ScopesAreClosed};

/// What is declared under a block or a `for` isn't found by a use elsewhere.
pub fn scopes_are_closed()
    ensures { ScopesAreClosed }
{}
