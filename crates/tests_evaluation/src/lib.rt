//! The tests of `cr_eval`, `cr_eval_join`, `cr_exec_turns` and `cr_exec_expressions` at expressions, of `cr_exec_library`, and of `cr_exec`, by public names
//! alone: expressions over the objects of a hand-made unit, each node evaluated by these crates, calls of the library, and programs as
//! lists of operations.
//!
//! They stand above these crates, so that none of them proves its functions once more for its tests. It promises nothing, and stands on
//! the crates that it tests.
#![tactic(auto)]

#[cfg(test)]
mod calls;
#[cfg(test)]
mod evaluate;
#[cfg(test)]
mod expressions;
#[cfg(test)]
mod orders;
#[cfg(test)]
mod programs;
#[cfg(test)]
mod rows;
#[cfg(test)]
mod turns;
#[cfg(test)]
mod unit;
#[cfg(test)]
mod words;
