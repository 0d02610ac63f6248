//! The tests of `cr_core`, `cr_claims`, `cr_pool` and `cr_standing`, by public names alone.
//!
//! They stand above these crates, so that none of them proves its functions once more for its tests. It promises nothing, and
//! stands on the crates that it tests.
#![tactic(auto)]

#[cfg(test)]
mod claiming;
#[cfg(test)]
mod crowd;
#[cfg(test)]
mod epochs;
#[cfg(test)]
mod events;
#[cfg(test)]
mod judges;
#[cfg(test)]
mod meeting;
#[cfg(test)]
mod random;
#[cfg(test)]
mod reductions;
#[cfg(test)]
mod remembered;
#[cfg(test)]
mod stepping;
