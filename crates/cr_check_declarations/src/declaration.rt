ghost use Rattle.std.specs.Prelude.{◌≡◌, slice_get};
ghost use Rattle.cr_check_declarations.specs.Named.{is_declarator, is_declaration, is_initialised, above_in, declaration_at, declaration_of, specifiers_in, is_parameter};

use crate::tree::{Tree, above, kind_of, parts_of};
use cr_check_expressions::part_at;
use cr_syntax::Kind;

/// Whether a node of a kind is a declarator, with a name or without.
pub fn is_declarator(kind: Kind) -> bool
    ensures { result ≡ is_declarator kind }
{
    match kind {
        Kind::NameDeclarator | Kind::GroupDeclarator | Kind::PointerDeclarator => true,
        Kind::ArrayDeclarator | Kind::FunctionDeclarator | Kind::AbstractPointer => true,
        Kind::AbstractGroup | Kind::AbstractArray | Kind::AbstractArrayOf => true,
        _ => false,
    }
}

fn is_declaration(kind: Option<Kind>) -> bool
    ensures { result ≡ is_declaration kind }
{
    match kind {
        Some(Kind::Declaration) => true,
        Some(Kind::FunctionDefinition) => true,
        Some(Kind::MemberDeclaration) => true,
        Some(Kind::Parameter) => true,
        Some(Kind::TypeName) => true,
        _ => false,
    }
}

/// Whether a node above a declarator has its initialiser.
pub fn is_initialised(kind: Option<Kind>) -> bool
    ensures { result ≡ is_initialised kind }
{
    match kind {
        Some(Kind::InitDeclarator) => true,
        _ => false,
    }
}

/// Whether it is that of a parameter.
pub(crate) fn is_parameter(kind: Option<Kind>) -> bool
    ensures { result ≡ is_parameter kind }
{
    match kind {
        Some(Kind::Parameter) => true,
        _ => false,
    }
}

fn above_in(tree: &Tree, node: Option<u32>) -> Option<u32>
    ensures { result ≡ above_in tree.now.above.now node }
{
    match node {
        None => None,
        Some(node) => above(tree, node),
    }
}

fn declaration_at(tree: &Tree, node: Option<u32>) -> Option<u32>
    ensures { result ≡ declaration_at tree.now.nodes.now node }
{
    if is_declaration(kind_of(tree.nodes, node)) {
        node
    } else {
        None
    }
}

/// The declaration that has a node as a declarator, maybe with its initialiser; no part of a declarator has one.
pub fn declaration_of(tree: &Tree, at: u32) -> Option<u32>
    ensures { result ≡ declaration_of tree.now.nodes.now tree.now.above.now at }
{
    let over = above(tree, at);
    if is_initialised(kind_of(tree.nodes, over)) {
        declaration_at(tree, above_in(tree, over))
    } else {
        declaration_at(tree, over)
    }
}

/// The specifiers of a declaration.
pub fn specifiers_in(tree: &Tree, declaration: Option<u32>) -> Option<u32>
    ensures { result ≡ specifiers_in tree.now.nodes.now declaration }
{
    part_at(parts_of(tree.nodes, declaration), 0)
}
