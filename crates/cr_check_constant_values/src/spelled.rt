//! What a reader expects of constants. The program calls none of these functions.
ghost use Rattle.cr_check_constant_values.specs.Spelled.Laws.{IntegersHaveValues, CharactersHaveValues};

/// An integer constant has a value of its type.
pub fn integers_have_values()
    ensures { IntegersHaveValues }
{}

/// A character constant is one byte.
pub fn characters_have_values()
    ensures { CharactersHaveValues }
{}
