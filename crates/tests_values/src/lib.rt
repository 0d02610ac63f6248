//! The tests of `cr_rows`, `cr_ints`, `cr_memory`, `cr_footprint` and `cr_library`, by public names alone.
//!
//! They stand above these crates, so that none of them proves its functions once more for its tests. It promises nothing,
//! and stands on the crates that it tests.
#![tactic(auto)]

#[cfg(test)]
mod bits;
#[cfg(test)]
mod footprint;
#[cfg(test)]
mod ints;
#[cfg(test)]
mod large;
#[cfg(test)]
mod library;
#[cfg(test)]
mod lists;
#[cfg(test)]
mod memory;
#[cfg(test)]
mod postfix;
#[cfg(test)]
mod rows;
#[cfg(test)]
mod stores;
#[cfg(test)]
mod structures;
#[cfg(test)]
mod touches;
