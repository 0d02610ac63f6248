//! What a typed unit comes to when it is run (C11 5.1.2): its status with what it prints, or the first case of undefined behaviour or
//! of leaving the profile. It makes the unit's table and runs it; what it answers is said of the unit alone. It stands on the table and
//! on the interpreter.
#![tactic(auto)]

mod running;

pub use running::outcome;
