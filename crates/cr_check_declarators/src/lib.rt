//! What declarations declare (C11 6.7): the type that specifiers name, what declarators make of it, parameters, structures and
//! enumerations, linkage, and which declarations of one name agree.
//!
//! Each call decides one rule over the facts of a node's parts: words, rows of types and constants, never the tree. A rule that a
//! constraint has answers the token of its fault, or whether it holds; `specs/` lists by its number which constraint each rule
//! decides. Each call answers exactly its rule; the only error is want of memory. It stands on the types, the constants and the
//! places of specifiers.
#![tactic(auto)]

mod declarator;
mod declared;
mod enumerators;
mod functions;
mod laws;
mod linkages;
mod named;
mod parameters;
mod standing;
mod structures;
mod tags;
mod words;

pub use declarator::{
    Arrays, BARE, Declarator, MOST_CELLS, Size, array, function, pointer, size_of,
};
pub use declared::{
    arrayed, cells_fault, declare, function_fault, has_whole_elements, hole, is_hole, is_object,
    is_whole_object, open_fault, pointed,
};
pub use enumerators::{Enumerated, Given, enumeration_kind, enumerator_by};
pub use functions::{
    Library, Signature, agree, has_library_type, is_int, is_plain_int, library_of,
};
pub use laws::cells_are_counted;
pub use linkages::{
    Declaration, Linkage, is_again, linkage_of, may_be_initialised, with_declaration,
};
pub use named::{is_one_type, named_type};
pub use parameters::adjusted;
pub use standing::{inline_fault, storage_fault, volatile_fault};
pub use structures::{Structure, is_too_large, structure_of};
pub use tags::tag_agrees;
pub use words::{Base, Class, Length, Sign, Specified, Storage, UNSAID, joined, specifier};
