//! The integer types of the subset and their operations, as C11 6.3.1 and 6.5 state them: conversions, promotions,
//! the usual arithmetic conversions, and `+ - * / % << >> & | ^ ~` on operands of one kind. Each call answers exactly the
//! operation on integers without bounds and what the kind makes of its result, or the case in which the behaviour is
//! undefined. No call takes memory, and the crate stands on no other.
#![tactic(auto)]

mod arithmetic;
mod bits;
mod conversion;
mod end;
mod kind;
pub mod laws;

pub use arithmetic::{add, div, mul, neg, rem, shl, shr, sub};
pub use bits::{bitand, bitor, bitxor, not};
pub use conversion::{common, convert, promote};
pub use end::{
    IntEnd, LEFT_SHIFT, NOT_REPRESENTABLE, QUOTIENT_NOT_REPRESENTABLE, SHIFT_COUNT, ZERO_DIVISOR,
};
pub use kind::IntKind;
