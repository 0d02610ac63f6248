use cr_eval_join::Part;
use cr_meaning::Value;

/// What a node answers.
#[derive(Drop)]
pub enum Held {
    /// An expression: its value, and what it read and wrote.
    Part(Part),
    /// A statement that the next one follows (C11 6.8).
    Next,
    /// A `break` is under way.
    Broke,
    /// A `continue` is under way.
    Continued,
    /// A `goto` to the label of this node is under way.
    Jumped(u32),
    /// A `return` with this value is under way.
    Returned(Value),
}
