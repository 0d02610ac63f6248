ghost use Rattle.std.specs.Prelude.{◌≡◌, ◌<◌, true};
ghost use Rattle.std.specs.List.{list_all};
ghost use Rattle.cr_check_types.specs.Types.{type_at};
ghost use Rattle.cr_check_initialisers.specs.Known.{known_of, member_types};
ghost use Rattle.cr_check_initialisers.specs.Places.{is_char, is_char_kind, is_structure, takes, is_earlier, are_made, is_lost, is_unknown, opens, encloses, begins_with_literal};

use crate::source::{Source, is_listed, is_literal, members_at, shape_at, shape_of};
use cr_check_expressions::Member;
use cr_ints::IntKind;
use cr_syntax::CType;

/// Whether a type is a character type (C11 6.2.5p15).
pub(crate) fn is_char(source: &Source, row: u32) -> bool
    ensures { result ≡ is_char (type_at source.now.table.now row) }
{
    match shape_at(source, row).of {
        CType::Int(kind) => is_char_kind(kind),
        _ => false,
    }
}

fn is_char_kind(kind: IntKind) -> bool
    ensures { result ≡ is_char_kind kind }
{
    match kind {
        IntKind::Char | IntKind::SChar | IntKind::UChar => true,
        _ => false,
    }
}

// Whether an expression is of the structure of a node.
fn is_structure(source: &Source, node: u32, structure: u32) -> bool
    ensures { result ≡ is_structure structure ((known_of source.now).seen node).type }
{
    match shape_of(source, node).of {
        CType::Struct(other) => other == structure,
        _ => false,
    }
}

/// Whether an expression has no type.
pub(crate) fn is_untyped(source: &Source, node: u32) -> bool
    ensures { result ≡ is_unknown ((known_of source.now).seen node).type }
{
    match shape_of(source, node).of {
        CType::Unknown => true,
        _ => false,
    }
}

/// Whether an expression initialises a whole place of a type.
#[tactic(auto, unfolding(crate::specs::Places::takes))]
pub(crate) fn takes(source: &Source, row: u32, node: u32) -> bool
    ensures { result ≡ takes (known_of source.now) (type_at source.now.table.now row) node }
{
    match shape_at(source, row).of {
        CType::Array(of, _) => is_char(source, of) && is_literal(source, node),
        CType::Struct(structure) => is_structure(source, node, structure),
        _ => true,
    }
}

/// Whether it isn't known what an expression initialises at a place of a type: it has no type itself, or a declaration of the place's
/// type broke a constraint.
#[tactic(auto, unfolding(crate::specs::Known::known_of, crate::specs::Places::is_lost))]
pub(crate) fn is_lost(source: &Source, row: u32, node: u32) -> bool
    ensures { result ≡ is_lost (known_of source.now) (type_at source.now.table.now row) node }
{
    match shape_at(source, row).of {
        CType::Struct(structure) => {
            is_untyped(source, node) || !are_made(source, structure, members_at(source, structure))
        }
        CType::Array(_, count) => count == 0,
        _ => false,
    }
}

// Whether a structure has members, all of types that are complete before it is.
fn are_made(source: &Source, structure: u32, members: &[Member]) -> bool
    ensures { result ≡ are_made structure (member_types source.now.table.now members.now) }
{
    !members.is_empty() && are_earlier(source, structure, members)
}

fn are_earlier(source: &Source, structure: u32, members: &[Member]) -> bool
    ensures { result ≡ list_all (is_earlier structure) (member_types source.now.table.now members.now) }
{
    for member in members {
        if !is_earlier(source, structure, member.row) {
            return false;
        }
    }
    true
}

// Whether the structure in a type, that of an array's elements too, is of a node before another one.
fn is_earlier(source: &Source, structure: u32, row: u32) -> bool
    ensures { result ≡ is_earlier structure (type_at source.now.table.now row) }
{
    let mut inner = row;
    loop {
        match shape_at(source, inner).of {
            CType::Struct(other) => return other < structure,
            CType::Array(below, _) => inner = below,
            _ => return true,
        }
    }
}

/// Whether a node is a list in braces among the initialisers of another.
#[tactic(auto, unfolding(crate::specs::Places::opens))]
pub(crate) fn opens(source: &Source, above: u32, node: u32) -> bool
    ensures is { result ≡ opens (known_of source.now) above node }
    ensures below { result ≡ true → node < above }
{
    node < above && is_listed(source, node)
}

/// Whether a list in braces is for a place of a type itself, and not for its parts.
#[tactic(auto, unfolding(crate::specs::Places::encloses))]
pub(crate) fn encloses(source: &Source, row: u32, list: &[u32]) -> bool
    ensures { result ≡ encloses (known_of source.now) (type_at source.now.table.now row) list.now }
{
    match shape_at(source, row).of {
        CType::Array(of, _) => is_char(source, of) && begins_with_literal(source, list),
        CType::Struct(_) => false,
        _ => true,
    }
}

fn begins_with_literal(source: &Source, list: &[u32]) -> bool
    ensures { result ≡ begins_with_literal (known_of source.now) list.now }
{
    match list {
        [] => false,
        [node, ..] => is_literal(source, *node),
    }
}
