//! What a reader expects of the sizes of types of a unit that breaks no constraint. The program calls none of these functions.
ghost use Rattle.cr_meaning_types.specs.Fitting.Laws.{LiteralsAreShort, StructuresAreBounded, TypedUnitsFit, TypesAreBounded};

/// No array has too many cells, and each has elements of a complete type.
pub fn types_are_bounded()
    ensures { TypesAreBounded }
{}

/// No structure has too many cells.
pub fn structures_are_bounded()
    ensures { StructuresAreBounded }
{}

/// A string literal has no more bytes than an array may have cells.
pub fn literals_are_short()
    ensures { LiteralsAreShort }
{}

/// What is made of a unit without fault as a typed one fits.
pub fn typed_units_fit()
    ensures { TypedUnitsFit }
{}
