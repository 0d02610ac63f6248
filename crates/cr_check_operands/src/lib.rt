//! What the operators of C11 6.5 make of their operands: the type of the result, whether it is a place, and what it is as an
//! integer constant expression.
//!
//! An operand is its value after the conversions of 6.3.2.1, or, where an operator asks for a place, the fact of its node. The
//! constraint of an operator is its rule's, in `specs/Rules.antt` and `specs/Places.antt`: the operands that it allows have a
//! result, and all others none. Each call answers exactly its rule; the only error is want of memory. It stands on the
//! types and the constants.
#![tactic(auto)]

mod arithmetic;
mod assignment;
mod choice;
mod comparison;
mod conversion;
mod fact;
mod logic;
mod place;
mod pointed;
mod value;

pub use arithmetic::{difference, integers, shifted, sum};
pub use assignment::{assign, compound, increment, is_assignable, is_modifiable, is_passable};
pub use choice::{Branch, conditional};
pub use comparison::{equality, order};
pub use conversion::{cast, is_null_cast, size};
pub use fact::{Fact, fact_of, value_in_row, value_of};
pub use logic::{Junction, comma, is_integer, is_scalar, logical, negated, signed};
pub use place::{
    address, dereference, member, object, pointed_member, structure_at, subscript, text,
};
pub use value::Value;
