//! A law of names: the clause of a function that does nothing.
ghost use Rattle.cr_main.specs.Laws.{HasOneOwnName};

/// A name has one own name.
pub fn a_name_has_one_own_name()
    ensures { HasOneOwnName }
{}
