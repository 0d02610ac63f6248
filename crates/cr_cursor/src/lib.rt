//! What a reduction is generic over, and how a file's variants are numbered: passes, which offer variants of a file; the
//! law that a file must obey; the stop by which a long ruling is given up; and one flat number for each variant of a
//! file. What passes offer is a relation, so that it may rest on other relations, as a file's tokens or its tree. Stands
//! on `cr_tokens`.
#![tactic(auto)]

mod law;
mod passes;
mod places;
mod stop;

pub use law::{Law, Reason, Ruling, TokenLaw, line_of, token_ruling};
pub use passes::{Cursor, NoMemory, Passes};
pub use places::{LEVELS, PASSES, cursor_at, position_of, positions};
pub use stop::{Never, Stop};
