ghost use Rattle.std.specs.Prelude.{◌≡◌, slice_index_or};
ghost use Rattle.cr_check_declarators.specs.Specifiers.{nothing};
ghost use Rattle.cr_check_declarations.specs.Specifiers.{are_specifiers, tag_declares, declares_by, joined_in, said_by};

use crate::before::{Columns, specified_of};
use crate::tree::{Tag, Tree, tag_of};
use cr_check_declarators::{Specified, UNSAID, joined, specifier};
use cr_syntax::{Kind, Node};

/// What a node says as specifiers of a declaration, by what its parts say.
pub fn specified(tree: &Tree, columns: &Columns, at: u32, node: &Node) -> Specified
    ensures { result ≡ said_by node.now.kind (λ p. slice_index_or columns.now.specified.now p nothing) (slice_index_or tree.now.tags.now at None) node.now }
{
    if are_specifiers(node.kind) {
        joined_in(columns, node.parts.as_slice())
    } else {
        specifier(node.kind, node.first, declares(node.kind, tag_of(tree, at)))
    }
}

fn are_specifiers(kind: Kind) -> bool
    ensures { result ≡ are_specifiers kind }
{
    match kind {
        Kind::Specifiers | Kind::PlainSpecifiers => true,
        _ => false,
    }
}

fn joined_in(columns: &Columns, parts: &[u32]) -> Specified
    ensures { result ≡ joined_in (λ p. slice_index_or columns.now.specified.now p nothing) parts.now }
{
    let mut said = UNSAID;
    for part in parts {
        said = joined(said, specified_of(columns, Some(*part)));
    }
    said
}

fn declares(kind: Kind, tag: Option<Tag>) -> bool
    ensures { result ≡ declares_by kind tag }
{
    match kind {
        Kind::EnumContent => true,
        _ => tag_declares(tag),
    }
}

fn tag_declares(tag: Option<Tag>) -> bool
    ensures { result ≡ tag_declares tag }
{
    match tag {
        Some(tag) => tag.declares,
        None => false,
    }
}
