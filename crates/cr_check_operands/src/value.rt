use cr_check_constants::Operand;

/// The value of an expression, after the conversions of C11 6.3.2.1.
#[derive(Clone, Copy)]
pub enum Value {
    /// An integer: its type, and what it is as a constant.
    Integer(Operand),
    /// A pointer to the type of a row.
    Pointer(u32),
    /// A structure, by its node.
    Structure(u32),
    /// An array that is no place, by the row of its type: it stays an array.
    Array(u32),
    /// What an expression of type void has (6.3.2.2).
    Void,
    /// What an expression without a type has.
    Unknown,
}
