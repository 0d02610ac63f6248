ghost use Rattle.std.specs.Prelude.{◌≡◌, ◌<◌, None, IfOk, OnOk, length, map, slice_index_or};
ghost use Rattle.cr_check_types.specs.Types.{type_at, IsRow, Grows};
ghost use Rattle.cr_check_types.specs.Relations.{AreRows};
ghost use Rattle.cr_check_declarations.specs.Before.{AreColumns};
ghost use Rattle.cr_check_linkage.specs.NameTypes.{AreNameRows, name_type, type_or, parameters_or};
ghost use Rattle.cr_check_linkage.specs.Linked.{past_at, linked_in, name_type_in, AreLinks, seen_with, seen_by, same_by, composite_by};

use crate::joining::{TypeRows, joined, kept};
use crate::links::{Links, composite_of, linked_of, seen_of};
use crate::name_type::NameRows;
use cr_check_declarations::{Columns, Tree, earlier, same};
use cr_check_declarators::Declaration;
use cr_check_expressions::part_at;
use cr_check_types::Table;
use cr_syntax::{Kind, Node};
use std::alloc::{AllocError, Global};

/// The type with which uses see the name that a node declares, by its own type (C11 6.2.7p4). The error is want of memory.
#[tactic(auto, using(crate::proofs::Rows::own_type, crate::proofs::Rows::own_parameters))]
pub fn seen(
    alloc: Global,
    table: &mut Table,
    tree: &Tree,
    columns: &Columns,
    links: &Links,
    linked: Option<Declaration>,
    own: NameRows,
    at: u32,
) -> Result<TypeRows, AllocError>
    requires columns { AreColumns table.old columns.now }
    requires own { AreNameRows table.old own }
    ensures within { IfOk result (λ j. AreRows table.new j.parameters) }
    ensures row { IfOk result (λ j. IsRow table.new j.row (type_or (type_at table.old own.entry.row) (seen_by linked (past_at table.old columns.now links.now) (slice_index_or tree.now.earlier.now at None) (name_type table.old own.entry)))) }
    ensures parameters { IfOk result (λ j. map (type_at table.new) j.parameters ≡ parameters_or (map (type_at table.old) own.entry.parameters.now) (seen_by linked (past_at table.old columns.now links.now) (slice_index_or tree.now.earlier.now at None) (name_type table.old own.entry))) }
    ensures grows { OnOk result (Grows table.old table.new) }
{
    match linked {
        None => kept(alloc, own),
        Some(_) => seen_with(alloc, table, columns, links, earlier(tree, at), own),
    }
}

// That of a linked name.
#[tactic(auto, using(crate::proofs::Rows::own_type, crate::proofs::Rows::own_parameters))]
fn seen_with(
    alloc: Global,
    table: &mut Table,
    columns: &Columns,
    links: &Links,
    earlier: Option<u32>,
    own: NameRows,
) -> Result<TypeRows, AllocError>
    requires columns { AreColumns table.old columns.now }
    requires own { AreNameRows table.old own }
    ensures within { IfOk result (λ j. AreRows table.new j.parameters) }
    ensures row { IfOk result (λ j. IsRow table.new j.row (type_or (type_at table.old own.entry.row) (seen_with (linked_in (past_at table.old columns.now links.now).linked earlier) (name_type_in (past_at table.old columns.now links.now).seen earlier) (name_type table.old own.entry)))) }
    ensures parameters { IfOk result (λ j. map (type_at table.new) j.parameters ≡ parameters_or (map (type_at table.old) own.entry.parameters.now) (seen_with (linked_in (past_at table.old columns.now links.now).linked earlier) (name_type_in (past_at table.old columns.now links.now).seen earlier) (name_type table.old own.entry))) }
    ensures grows { OnOk result (Grows table.old table.new) }
{
    match linked_of(links, earlier) {
        None => kept(alloc, own),
        Some(_) => {
            let before = seen_of(table, columns, earlier);
            joined(alloc, table, before, own)
        }
    }
}

/// The composite type of all declarations of a name up to a node, by the type with which uses see it there (6.2.7p3). The error is want
/// of memory.
pub fn composite(
    alloc: Global,
    table: &mut Table,
    tree: &Tree,
    columns: &Columns,
    links: &Links,
    linked: Option<Declaration>,
    now: NameRows,
    at: u32,
    node: &Node,
) -> Result<TypeRows, AllocError>
    requires columns { AreColumns table.old columns.now }
    requires links { AreLinks table.old links.now }
    requires now { AreNameRows table.old now }
    ensures within { IfOk result (λ j. AreRows table.new j.parameters) }
    ensures row { IfOk result (λ j. IsRow table.new j.row (type_or (type_at table.old now.entry.row) (composite_by node.now.kind linked (past_at table.old columns.now links.now) (slice_index_or tree.now.same.now at None) node.now (name_type table.old now.entry)))) }
    ensures parameters { IfOk result (λ j. map (type_at table.new) j.parameters ≡ parameters_or (map (type_at table.old) now.entry.parameters.now) (composite_by node.now.kind linked (past_at table.old columns.now links.now) (slice_index_or tree.now.same.now at None) node.now (name_type table.old now.entry))) }
    ensures grows { OnOk result (Grows table.old table.new) }
{
    let before = same_by(node, linked, same(tree, at));
    let before = composite_of(table, columns, links, before);
    joined(alloc, table, before, now)
}

// The declaration before the one at a node.
fn same_by(node: &Node, linked: Option<Declaration>, same: Option<u32>) -> Option<u32>
    ensures { result ≡ same_by node.now.kind linked same node.now }
{
    match node.kind {
        Kind::InitDeclarator => part_at(node.parts.as_slice(), 0),
        _ => match linked {
            None => None,
            Some(_) => same,
        },
    }
}
