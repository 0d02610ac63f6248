/// A binary operator whose operands are brought to their common kind.
#[derive(Clone, Copy)]
pub enum Arithmetic {
    /// `+`
    Add,
    /// binary `-`
    Subtract,
    /// binary `*`
    Multiply,
    /// `/`
    Divide,
    /// `%`
    Remainder,
    /// binary `&`
    And,
    /// `^`
    Xor,
    /// `|`
    Or,
}

/// A shift.
#[derive(Clone, Copy)]
pub enum Shift {
    /// `<<`
    Left,
    /// `>>`
    Right,
}

/// A comparison.
#[derive(Clone, Copy)]
pub enum Relation {
    /// `==`
    Equal,
    /// `!=`
    NotEqual,
    /// `<`
    Less,
    /// `>`
    Greater,
    /// `<=`
    LessEqual,
    /// `>=`
    GreaterEqual,
}

/// A unary operator whose operand is promoted.
#[derive(Clone, Copy)]
pub enum Sign {
    /// `+`
    Plus,
    /// `-`
    Minus,
    /// `~`
    Complement,
}
