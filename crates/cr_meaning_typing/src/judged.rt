//! What a reader expects of what was judged. The program calls none of these functions.
ghost use Rattle.cr_meaning_typing.specs.Judged.Judged.{UnitsAreJudged};

/// The columns of a typed unit are what was judged, by rules that read all of them.
pub fn units_are_judged()
    ensures { UnitsAreJudged }
{}
