//! Laws of the objects of a file's unit that are used. The program calls none of these functions.
ghost use Rattle.cr_meaning_objects.specs.Kept.Laws as laws;

/// A name of an object that a declaration declares names one that the program has.
pub fn named_objects_are_kept()
    ensures { laws.NamedObjectsAreKept }
{}

/// A name that is a place sees a declaration of an object.
pub fn places_see_objects()
    ensures { laws.PlacesSeeObjects }
{}
