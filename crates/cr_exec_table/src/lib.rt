//! The table of a typed unit's program: the operation of each node and what the run needs of its types and objects, made once before
//! it. `table` makes exactly the program that `cr_meaning_operations` says the unit is. It stands on the types' part of the table in
//! `cr_exec_shapes`, and on the table of `cr_eval`.
#![tactic(auto)]

mod blocks;
mod calls;
mod labels;
mod loops;
mod nodes;
mod op;
mod program;
mod role;
mod work;

pub use program::table;
