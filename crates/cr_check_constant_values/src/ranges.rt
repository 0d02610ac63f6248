//! What a reader expects of constants. The program calls none of these functions.
ghost use Rattle.cr_check_constant_values.specs.Ranges.Laws.{IntegersAreInRange, CharactersAreInRange, EnumeratorsAreInRange, SizesAreInRange};

/// Integer constants are numbers of their types.
pub fn integers_are_in_range()
    ensures { IntegersAreInRange }
{}

/// Character constants are ints.
pub fn characters_are_in_range()
    ensures { CharactersAreInRange }
{}

/// Enumerators are ints.
pub fn enumerators_are_in_range()
    ensures { EnumeratorsAreInRange }
{}

/// Sizes are unsigned longs.
pub fn sizes_are_in_range()
    ensures { SizesAreInRange }
{}
