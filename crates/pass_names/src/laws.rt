// Laws of short names: each is the contract of a function that does nothing.
ghost use Rattle.pass_names.specs.Laws.{HaveOwnNames, IsANameFree};

/// Numbers below 475,254 have different names.
pub fn numbers_have_own_names()
    ensures { HaveOwnNames }
{}

/// Among as many tokens as a file may have, and up to 475,209, a name of at most four letters is free.
pub fn a_name_is_free()
    ensures { IsANameFree }
{}
