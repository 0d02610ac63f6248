//! The tests of the law and of what it reads a file by, as texts of C with what comes of them, worked out by hand beforehand: constants,
//! places and types; names and their declarations; the check; what the law rules and what runs print; files at the limits; programs; the
//! order of operands; labels that a run reaches.
//!
//! They stand above `cr_lawful`, `cr_order` and `cr_reached`, so that none of these crates is proved once more for its tests, and in one crate, since each such crate
//! builds the parsers and the check anew. It promises nothing, and stands on the law and on what the law stands on, by which it runs a
//! file once more to see its end.
#![tactic(auto)]

#[cfg(test)]
mod checking;
#[cfg(test)]
mod checks;
#[cfg(test)]
mod constants;
#[cfg(test)]
mod declarations;
#[cfg(test)]
mod examples;
#[cfg(test)]
mod left;
#[cfg(test)]
mod limits;
#[cfg(test)]
mod looks;
#[cfg(test)]
mod names;
#[cfg(test)]
mod orders;
#[cfg(test)]
mod places;
#[cfg(test)]
mod programs;
#[cfg(test)]
mod reached;
#[cfg(test)]
mod rulings;
#[cfg(test)]
mod shown;
#[cfg(test)]
mod texts;
#[cfg(test)]
mod types;
