//! Whether the types of a typed unit fit it: types that are no larger than the constraints let them be, and structures behind those in them.
//!
//! What a run asks of a typed unit's types that goes by the content of the check is tested here, in the time of the unit's size, so that who
//! makes the columns need not prove it; all else that a run asks is proved in `cr_typed_unit`. It promises that what is taken fits, and
//! stands on the typed unit and its types.
#![tactic(auto)]

mod extents;
mod fitting;

pub use fitting::fits;
