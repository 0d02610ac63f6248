/// What is to be read.
#[derive(Clone, Copy, PartialEq, Eq, Debug)]
pub enum Goal {
    /// An expression (C11 6.5.17).
    Expression,
    /// An assignment expression (6.5.16).
    Assignment,
    /// A conditional expression (6.5.15).
    Conditional,
}
