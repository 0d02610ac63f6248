//! Integer constant expressions (C11 6.6): what each operator of 6.5 makes of its operands, what casts, `sizeof` and
//! enumerators give, and the types and values of integer and character constants by their spellings. Each call answers
//! exactly its definition; none asks anything of its operands, and none takes memory. It stands on the operations on
//! integers, and on the tokens for how digits are read.
#![tactic(auto)]

mod binary;
mod comparison;
mod constant;
mod convert;
mod letter;
mod literal;
mod logical;
mod operator;
mod prefix;

pub use binary::{arithmetic, shift};
pub use comparison::relation;
pub use constant::{Constant, Operand};
pub use letter::character;
pub use literal::integer;
pub use logical::{comma, conditional, logical_and, logical_or, not};
pub use operator::{Arithmetic, Relation, Shift, Sign};
pub use prefix::{cast, enumerator, next_enumerator, size, unary};
