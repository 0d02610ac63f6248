//! A call that may fail while a value is held: what came of both, or the call's error, where the value is let go. It stands on std alone.
//!
//! It is for values with many parts: where one is alive at an early end, the proof of the function that ends there walks through the
//! release of each part, and here that of any value is one step.
#![tactic(auto)]

mod held;

pub use held::holding;
