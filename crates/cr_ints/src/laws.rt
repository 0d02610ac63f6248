//! What a reader of C11 6.3.1 expects of the conversions, and of the operations on bits. The program calls none of these functions.

ghost use Rattle.cr_ints.specs.Laws.{ConversionKeepsRange, ConversionIsRepresentable, ConversionIsCongruent, ConversionIsUnique, PromotionKeepsValues, PromotionIsIdempotent, CommonIsSymmetric, BitsAreKept, ComplementIsNegationLessOne};

/// Conversion leaves a value of the kind's range as it is (6.3.1.3p1).
pub fn conversion_keeps_range()
    ensures { ConversionKeepsRange }
{}

/// A converted value is one of the kind's.
pub fn conversion_is_representable()
    ensures { ConversionIsRepresentable }
{}

/// But for `_Bool`, conversion adds or subtracts the number of the kind's values (6.3.1.3p2).
pub fn conversion_is_congruent()
    ensures { ConversionIsCongruent }
{}

/// No other value of the kind's range is congruent to the value that is converted.
pub fn conversion_is_unique()
    ensures { ConversionIsUnique }
{}

/// The integer promotions preserve the value (6.3.1.1p3).
pub fn promotion_keeps_values()
    ensures { PromotionKeepsValues }
{}

/// Promoting twice is promoting once.
pub fn promotion_is_idempotent()
    ensures { PromotionIsIdempotent }
{}

/// The usual arithmetic conversions don't depend on the order of the operands.
pub fn common_is_symmetric()
    ensures { CommonIsSymmetric }
{}

/// A value's bits are those of no other value of its kind.
pub fn bits_are_kept()
    ensures { BitsAreKept }
{}

/// The complement of a signed value is its negation less 1 (6.2.6.2p2).
pub fn complement_is_negation_less_one()
    ensures { ComplementIsNegationLessOne }
{}
