// Two brackets that belong together.

/// An opening bracket and its partner, by the numbers of their signs, from 0.
#[derive(Clone, Copy, Drop)]
pub struct Pair {
    pub from: u32,
    pub to: u32,
}
