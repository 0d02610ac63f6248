//! Laws of names in constant initialisers. The program calls none of these functions.
ghost use Rattle.cr_meaning_references.specs.Constant.Laws as laws;

/// A name of an object whose address is constant stands for no automatic object.
pub fn anchored_names_last()
    ensures { laws.AnchoredNamesLast }
{}

/// A name that is used, also a called one, is told once where it stands among no definition's parameters.
pub fn names_are_told_once()
    ensures { laws.NamesAreToldOnce }
{}
