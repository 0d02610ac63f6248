//! What a reader expects of the types of a unit that breaks no constraint. The program calls none of these functions.
ghost use Rattle.cr_meaning_types.specs.Known.Laws.{ExpressionsReadTypes, MembersAreSized, TypesAreKnown};

/// Each declared type is known, and each expression has a value.
pub fn types_are_known()
    ensures { TypesAreKnown }
{}

/// What an expression reads of names, members and type names is known.
pub fn expressions_read_types()
    ensures { ExpressionsReadTypes }
{}

/// No member of a structure is an array of unknown size.
pub fn members_are_sized()
    ensures { MembersAreSized }
{}
