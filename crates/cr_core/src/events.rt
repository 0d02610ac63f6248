use crate::marks::HitKind;

/// What becomes of a worker's open entry as it claims the next position, or leaves.
#[derive(Clone, Copy, Debug, Drop, PartialEq, Eq)]
pub enum Settle {
    /// It has none.
    Nothing,
    /// It was tried and rejected.
    No,
    /// It was given up.
    Skipped,
}

/// What a worker does. The first number is the worker's, counted from 0.
#[derive(Clone, Copy, Debug, Drop, PartialEq, Eq)]
pub enum Event {
    /// It settles its open entry and claims the next position.
    Claim(u32, Settle),
    /// It looks at the least hit.
    Look(u32),
    /// Its open entry is a hit.
    Hit(u32, HitKind),
    /// It settles its open entry and claims no more.
    Leave(u32, Settle),
}

/// The first position of an epoch that wasn't rejected.
#[derive(Clone, Copy, Debug, Drop, PartialEq, Eq)]
pub enum First {
    /// Every position was rejected.
    None,
    At(u64, HitKind),
}
