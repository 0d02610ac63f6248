//! Which part of a node comes next (C11 6.5, 6.8), by what its parts have answered so far: `next`, for each kind of node. An answer is
//! kept as `Held`, an expression's with the footprint of its events. It promises that the way on is the meaning's. It stands on the turns
//! of expressions and on the machine's ways.
#![tactic(auto)]

mod cases;
mod expressions;
mod held;
mod lists;
mod loops;
mod turn;
mod ways;

pub use expressions::is_expression;
pub use held::Held;
pub use turn::next;
