//! What a reader of C11 7.21.6.1 expects of the pieces of a format and of their arguments. The
//! program calls none of these functions.

ghost use Rattle.cr_library.specs.Laws.{PiecesAreUnique, PiecesStayInProfile, AgreementIsTested, TheOtherPiecesTakeIntegers};

/// A format has at most one list of pieces.
pub fn pieces_are_unique()
    ensures { PiecesAreUnique }
{}

/// A format that leaves the profile has none, so `pieces` answers Outside wherever it does.
pub fn pieces_stay_in_profile()
    ensures { PiecesStayInProfile }
{}

/// Of a value of the argument's type, the test of agreement is the fact.
pub fn agreement_is_tested()
    ensures { AgreementIsTested }
{}

/// Of the pieces of a format, those that are no run of bytes and no text may be given to `show`, and no others.
pub fn the_other_pieces_take_integers()
    ensures { TheOtherPiecesTakeIntegers }
{}
