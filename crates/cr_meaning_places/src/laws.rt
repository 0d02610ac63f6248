//! What a reader expects of places. The program calls none of these functions.
ghost use Rattle.cr_meaning_places.specs.Laws.{PlacesAreDeclared, ScalarsAreOwn, UnitsHaveDeclaredPlaces};

/// Where a node reads or writes cells, that place leads there from a declared object, by its members and elements.
pub fn places_are_declared()
    ensures { PlacesAreDeclared }
{}

/// A scalar is read and written as the kind that its cell has in its object.
pub fn scalars_are_own()
    ensures { ScalarsAreOwn }
{}

/// The places that the program of a typed unit reads and writes are declared ones.
pub fn units_have_declared_places()
    ensures { UnitsHaveDeclaredPlaces }
{}
