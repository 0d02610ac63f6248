//! A translation unit with the types of its expressions, as the constraints give it to whoever runs it: columns with one entry a
//! node. It holds no function; what the columns have to be is `IsTyped`. It stands on the tree and the types.
#![tactic(auto)]

mod typed;

pub use typed::{Duration, Put, Typed};
