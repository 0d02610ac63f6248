//! What a reader expects of what names and tags find. The program doesn't call this function.
ghost use Rattle.cr_meaning_types.specs.Found.Laws.{WhatIsFoundIsDeclared};

/// Names find declarators or enumerators, and tags specifiers and contents.
pub fn what_is_found_is_declared()
    ensures { WhatIsFoundIsDeclared }
{}
