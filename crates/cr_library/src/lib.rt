//! The formats of `printf` (C11 7.21.6.1): `pieces` cuts a format into runs of plain bytes and the
//! conversions of the profile, or says that it leaves the profile; `show` appends what one conversion
//! prints, or says that the argument's type disagrees with it. Both answer exactly. It stands on
//! `cr_ints` for the integer types and on `cr_rows` for the bytes within a piece.
#![tactic(auto)]

mod argument;
mod cut;
pub mod laws;
mod piece;

pub use argument::{ShowEnd, show};
pub use cut::{FormatEnd, pieces};
pub use piece::Piece;
