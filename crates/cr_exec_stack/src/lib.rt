//! A stack of nodes that wait for the answers of their parts, for a machine that runs a tree without recursion. All answers stand in
//! one list, and a node that waits is two numbers: which node it is, and where its answers begin. It promises what callers see of it,
//! the node at work and those below it with their answers, and stands on std alone.
#![tactic(auto)]

mod stack;

pub use stack::Stack;
