ghost use Rattle.std.specs.Prelude.{◌≡◌, ◌||◌, None, slice_index_or};
ghost use Rattle.cr_syntax.specs.Words.{AreSpans};
ghost use Rattle.cr_check_expressions.specs.Breaks.{first_of};
ghost use Rattle.cr_check_declarators.specs.Specifiers.{nothing};
ghost use Rattle.cr_check_declarations.specs.Before.{AreColumns};
ghost use Rattle.cr_check_declarations.specs.Faults.{name_in};
ghost use Rattle.cr_check_linkage.specs.NameTypes.{AreNameRows, name_type};
ghost use Rattle.cr_check_linkage.specs.Linked.{past_at, AreLinks};
ghost use Rattle.cr_check_linkage.specs.Faults.{library_at, completed_faults, linked_faults, faults_in};

use crate::declaring::declaration_at;
use crate::links::{Links, composite_of, linked_of};
use crate::name_type::{NameRows, disagrees, is_misdeclared};
use cr_check_declarations::{
    Columns, Tree, fault_at, is_declarator, name_in, same, spelling, token_if,
};
use cr_check_declarators::{Declaration, Declarator, Library, is_again, library_of};
use cr_check_expressions::{Break, lesser, part_at};
use cr_check_types::Table;
use cr_syntax::{Kind, Node};

/// The first constraint that a node breaks as one of several declarations of a name (K9, K10), by what these did so far and the type
/// with which uses see the name.
pub fn linkage_break(
    table: &Table,
    tree: &Tree,
    columns: &Columns,
    links: &Links,
    linked: Option<Declaration>,
    own: Declarator,
    now: NameRows,
    at: u32,
    node: &Node,
) -> Option<Break>
    requires spans { AreSpans tree.now.file.now tree.now.tokens.now }
    requires columns { AreColumns table.now columns.now }
    requires links { AreLinks table.now links.now }
    requires now { AreNameRows table.now now }
    ensures { result ≡ first_of (faults_in node.now.kind linked tree.now (λ p. slice_index_or columns.now.specified.now p nothing) own (past_at table.now columns.now links.now) (name_type table.now now.entry) at node.now) }
{
    match node.kind {
        Kind::InitDeclarator => {
            let declarator = part_at(node.parts.as_slice(), 0);
            completed_fault(table, tree, columns, links, now, declarator)
        }
        kind if is_declarator(kind) => {
            linked_fault(table, tree, columns, links, linked, own, now, at)
        }
        _ => None,
    }
}

fn completed_fault(
    table: &Table,
    tree: &Tree,
    columns: &Columns,
    links: &Links,
    now: NameRows,
    declarator: Option<u32>,
) -> Option<Break>
    requires columns { AreColumns table.now columns.now }
    requires links { AreLinks table.now links.now }
    requires now { AreNameRows table.now now }
    ensures { result ≡ first_of (completed_faults (past_at table.now columns.now links.now) declarator (name_in tree.now.nodes.now declarator) (name_type table.now now.entry)) }
{
    let before = composite_of(table, columns, links, declarator);
    fault_at(
        9,
        token_if(disagrees(table, before, now), name_in(tree, declarator)),
    )
}

fn linked_fault(
    table: &Table,
    tree: &Tree,
    columns: &Columns,
    links: &Links,
    linked: Option<Declaration>,
    own: Declarator,
    now: NameRows,
    at: u32,
) -> Option<Break>
    requires spans { AreSpans tree.now.file.now tree.now.tokens.now }
    requires columns { AreColumns table.now columns.now }
    requires links { AreLinks table.now links.now }
    requires now { AreNameRows table.now now }
    ensures { result ≡ first_of (linked_faults linked tree.now (λ p. slice_index_or columns.now.specified.now p nothing) own (past_at table.now columns.now links.now) (name_type table.now now.entry) at) }
{
    match linked {
        None => None,
        Some(_) => {
            let name = name_in(tree, Some(at));
            let library = library_at(tree, name);
            let same = same(tree, at);
            let disagrees = disagrees(table, composite_of(table, columns, links, same), now);
            let differs = disagrees || is_misdeclared(table, library, now);
            let does = declaration_at(tree, columns, links, own, at);
            let again = is_again(linked_of(links, same), does, library.is_some());
            lesser(
                fault_at(9, token_if(differs, name)),
                fault_at(10, token_if(again, name)),
            )
        }
    }
}

// The function of the library that a linked name is.
fn library_at(tree: &Tree, name: Option<u32>) -> Option<Library>
    requires { AreSpans tree.now.file.now tree.now.tokens.now }
    ensures { result ≡ library_at tree.now name }
{
    match name {
        None => None,
        Some(token) => library_of(spelling(tree, token as usize)),
    }
}
