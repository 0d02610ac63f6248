//! Laws of the definition of main. The program calls none of these functions.
ghost use Rattle.cr_meaning_objects.specs.Mains.Laws as laws;

/// Of one name no two functions are defined.
pub fn names_are_defined_once()
    ensures { laws.NamesAreDefinedOnce }
{}

/// Main gives an `int`, and has its parameters.
pub fn mains_are_declared_so()
    ensures { laws.MainsAreDeclaredSo }
{}
