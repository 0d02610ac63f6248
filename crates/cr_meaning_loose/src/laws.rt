//! What a reader expects of the first loose evaluation. The program calls none of these functions.
ghost use Rattle.cr_meaning_loose.specs.Laws.{LooseIsNotFixed, OneIsFirst, MarksTellForests};

/// A forest with a loose evaluation isn't fixed.
pub fn loose_is_not_fixed()
    ensures { LooseIsNotFixed }
{}

/// One evaluation at most is the first.
pub fn one_is_first()
    ensures { OneIsFirst }
{}

/// The marks of a run tell what is seen of it.
pub fn marks_tell_forests()
    ensures { MarksTellForests }
{}
