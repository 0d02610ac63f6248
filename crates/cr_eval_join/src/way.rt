/// What comes next at a node of an expression.
#[derive(Clone, Copy)]
pub enum Next {
    /// This operand is evaluated.
    Operand(u32),
    /// The function with this body is called: the arguments are evaluated.
    Call(u32),
    /// The node's own work is done: no operand is left.
    Ready,
}
