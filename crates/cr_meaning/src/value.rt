use cr_ints::IntKind;
use cr_memory::{Cell, Pointer};
use cr_rows::Row;

/// What the evaluation of an expression gives.
#[derive(Drop)]
pub enum Value {
    /// No value: that of a void expression, and of a call whose function reached its closing brace (C11 6.9.1p12).
    Nothing,
    /// A number of an integer type's range.
    Number(IntKind, i128),
    Pointer(Pointer),
    /// The place that an lvalue designates (6.3.2.1p1), as a pointer to it.
    Place(Pointer),
    /// The cells of a structure, or of an array that is no lvalue.
    Cells(Row<Cell>),
}
