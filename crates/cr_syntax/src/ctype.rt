use cr_ints::IntKind;

/// A type (C11 6.2.5).
#[derive(Clone, Copy, PartialEq, Eq, Debug)]
pub enum CType {
    Void,
    Int(IntKind),
    /// A pointer to what a row of shapes says.
    Pointer(u32),
    /// An array of so many of what a row of shapes says. An array of length 0 has an unknown size.
    Array(u32, u64),
    /// The structure of the node that defines it, or of the first that declares it where none defines it.
    Struct(u32),
    /// The function of the node that defines it, or of the first that declares it where none defines it.
    Function(u32),
    /// The type of every node that is no expression, and of no expression.
    Unknown,
}
