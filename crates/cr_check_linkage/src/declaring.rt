ghost use Rattle.std.specs.Prelude.{◌≡◌, ◌&&◌, None, slice_index_or};
ghost use Rattle.cr_check_declarators.specs.Specifiers.{nothing};
ghost use Rattle.cr_check_declarations.specs.Named.{declaration_of};
ghost use Rattle.cr_check_linkage.specs.Linked.{is_body_behind, is_file, linkage_in, linkage_by, declaration_by, declaration_at, linked_as, with_linked, linked_by};

use crate::links::{Links, linked_of};
use cr_check_declarations::{
    Columns, Tree, above, class_of, declaration_of, earlier, is_declarator, is_initialised,
    kind_of, place_of, same, specified_of, specifiers_in,
};
use cr_check_declarators::{Declaration, Declarator, Linkage, linkage_of, with_declaration};
use cr_check_enclosing::Place;
use cr_check_expressions::part_at;
use cr_syntax::{Kind, Node};

/// What the declarations of a linked name did, up to the one at a node, which has a declarator itself; none of a name without linkage.
pub fn linked(
    tree: &Tree,
    columns: &Columns,
    links: &Links,
    own: Declarator,
    at: u32,
    node: &Node,
) -> Option<Declaration>
    ensures { result ≡ linked_by node.now.kind tree.now (λ p. slice_index_or columns.now.specified.now p nothing) own (λ p. slice_index_or links.now.linked.now p None) at node.now }
{
    match node.kind {
        Kind::InitDeclarator => linked_of(links, part_at(node.parts.as_slice(), 0)),
        kind if is_declarator(kind) => {
            let before = linked_of(links, same(tree, at));
            with_linked(before, declaration_at(tree, columns, links, own, at))
        }
        _ => None,
    }
}

fn with_linked(before: Option<Declaration>, now: Declaration) -> Option<Declaration>
    ensures { result ≡ with_linked before now }
{
    linked_as(now.linkage, with_declaration(before, now))
}

fn linked_as(linkage: Linkage, all: Declaration) -> Option<Declaration>
    ensures { result ≡ linked_as linkage all }
{
    match linkage {
        Linkage::Alone => None,
        Linkage::Internal | Linkage::External => Some(all),
    }
}

/// What the declaration of a whole declarator does.
pub(crate) fn declaration_at(
    tree: &Tree,
    columns: &Columns,
    links: &Links,
    own: Declarator,
    at: u32,
) -> Declaration
    ensures { result ≡ declaration_at tree.now (λ p. slice_index_or columns.now.specified.now p nothing) own (λ p. slice_index_or links.now.linked.now p None) at }
{
    let declaration = declaration_of(tree, at);
    let visible = linked_of(links, earlier(tree, at));
    let linkage = linkage_by(tree, columns, own, visible, at, declaration);
    declaration_by(tree, at, linkage, declaration)
}

fn declaration_by(tree: &Tree, at: u32, linkage: Linkage, declaration: Option<u32>) -> Declaration
    ensures { result ≡ declaration_by tree.now at linkage declaration }
{
    Declaration {
        linkage,
        defines: is_body_behind(kind_of(tree.nodes, declaration)),
        initialised: is_file(place_of(tree, at))
            && is_initialised(kind_of(tree.nodes, above(tree, at))),
    }
}

fn is_body_behind(kind: Option<Kind>) -> bool
    ensures { result ≡ is_body_behind kind }
{
    match kind {
        Some(Kind::FunctionDefinition) => true,
        _ => false,
    }
}

fn is_file(place: Place) -> bool
    ensures { result ≡ is_file place }
{
    match place {
        Place::File => true,
        _ => false,
    }
}

fn linkage_by(
    tree: &Tree,
    columns: &Columns,
    own: Declarator,
    visible: Option<Declaration>,
    at: u32,
    declaration: Option<u32>,
) -> Linkage
    ensures { result ≡ linkage_by tree.now (λ p. slice_index_or columns.now.specified.now p nothing) own visible at declaration }
{
    match declaration {
        None => Linkage::Alone,
        Some(declaration) => {
            let said = specified_of(columns, specifiers_in(tree, Some(declaration)));
            let function = own.function.is_some();
            linkage_of(
                place_of(tree, at),
                class_of(said.storage),
                function,
                linkage_in(visible),
            )
        }
    }
}

fn linkage_in(declaration: Option<Declaration>) -> Option<Linkage>
    ensures { result ≡ linkage_in declaration }
{
    match declaration {
        None => None,
        Some(declaration) => Some(declaration.linkage),
    }
}
