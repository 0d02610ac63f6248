/// How an operation on integers ends.
#[derive(Clone, Copy, PartialEq, Eq, Debug)]
pub enum IntEnd {
    /// The value of the expression.
    Value(i128),
    /// The behaviour is undefined: the number of the case, from U1 to U5.
    Undefined(u8),
}

/// U1: the result of a signed operation isn't representable (C11 6.5p5).
pub const NOT_REPRESENTABLE: u8 = 1;
/// U2: the second operand of `/` or `%` is 0 (6.5.5p5).
pub const ZERO_DIVISOR: u8 = 2;
/// U3: the quotient isn't representable, for `/` and `%` (6.5.5p6).
pub const QUOTIENT_NOT_REPRESENTABLE: u8 = 3;
/// U4: a shift count is negative, or not below the width of the left operand (6.5.7p3).
pub const SHIFT_COUNT: u8 = 4;
/// U5: the left shift of a negative value, or one whose result isn't representable (6.5.7p4).
pub const LEFT_SHIFT: u8 = 5;
