//! The work of an expression's node once its operands are evaluated (C11 6.5), calls aside: `expression` does it on the operands'
//! answers on the stack, in whose place it puts the node's. It promises the meaning's answer with a footprint of just its events, or its first
//! case. It stands on the joining of operands, on the world of a run and on the stack of nodes.
#![tactic(auto)]

mod held;
mod named;
mod work;

pub use work::expression;
