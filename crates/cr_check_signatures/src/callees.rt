//! A law of calls. The program doesn't call this function.
ghost use Rattle.cr_check_signatures.specs.Callees.Laws.{LibraryCallsAreTyped};

/// A called name that is spelled like a library's function stands for one of its type.
pub fn library_calls_are_typed()
    ensures { LibraryCallsAreTyped }
{}
