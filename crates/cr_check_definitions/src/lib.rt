//! What the declarations of one name have to be together, once the types of a unit are known (C11 6.7p3, 6.9p3, p5, 5.1.2.2.1): a
//! typedef name is declared again with its type alone, `main` is defined, and so is each function and object that is used.
//!
//! The columns of nodes are handed in. `repeated` answers the first name that is a typedef with another type, and `is_defined` decides
//! K40. Each answers exactly its definition. It stands on the names of a unit, the rules of declarations and the types.
#![tactic(auto)]

mod defined;
mod known;
mod mains;
mod typedefs;

pub use defined::is_defined;
pub use known::Declarations;
pub use typedefs::repeated;
