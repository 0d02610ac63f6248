ghost use Rattle.std.specs.Prelude.{◌≡◌, [], None, slice_index_or};
ghost use Rattle.cr_check_types.specs.Types.{type_at};
ghost use Rattle.cr_check_expressions.specs.declared.known.Declared.TheVariants.{Unclear};
ghost use Rattle.cr_check_declarations.specs.Before.{AreColumns};
ghost use Rattle.cr_check_linkage.specs.NameTypes.{AreNameRows, name_type};
ghost use Rattle.cr_check_linkage.specs.Linked.{name_type_at, composite_at, linked_in, name_type_in, AreLinks};

use crate::name_type::NameRows;
use cr_check_declarations::{Columns, declared_of, parameters_at};
use cr_check_declarators::Declaration;
use cr_check_expressions::Declared;
use cr_check_types::Table;
use cr_rows::{Row, entry_at, row_at};

/// What the nodes so far have as declarations of names: columns with one entry a node, and what is not there is as nothing. A number is
/// that of a row of types.
#[derive(Clone, Copy)]
pub struct Links<'a> {
    /// What the declarations of a linked name did, up to the one at the node.
    pub linked: &'a [Option<Declaration>],
    /// The composite type of all of them, or of what their function gives; of a name without linkage its own type.
    pub composites: &'a [u32],
    /// The same of the parameters of their function.
    pub parameters: &'a [Row<u32>],
}

/// What the declarations of a linked name did, up to the one at a node.
pub(crate) fn linked_of(links: &Links, node: Option<u32>) -> Option<Declaration>
    ensures { result ≡ linked_in (λ p. slice_index_or links.now.linked.now p None) node }
{
    match node {
        None => None,
        Some(node) => entry_at(links.linked, node as usize, None),
    }
}

// Of no node.
fn no_name<'a>() -> NameRows<'a>
    ensures declared { result.declared ≡ Unclear }
    ensures row { result.row ≡ 0 }
    ensures parameters { result.parameters.now ≡ [] }
{
    NameRows {
        declared: Declared::Unclear,
        row: 0,
        parameters: &[],
    }
}

/// The type with which uses of a declaration see its name.
pub(crate) fn seen_of<'a>(table: &Table, columns: &'a Columns, node: Option<u32>) -> NameRows<'a>
    requires { AreColumns table.now columns.now }
    ensures within { AreNameRows table.now result }
    ensures is { name_type table.now result ≡ name_type_in (name_type_at table.now columns.now) node }
{
    match node {
        None => no_name(),
        Some(node) => NameRows {
            declared: declared_of(columns, Some(node)),
            row: entry_at(columns.named, node as usize, 0),
            parameters: parameters_at(columns, node),
        },
    }
}

/// The composite type of all declarations of a name, up to the one at a node.
pub(crate) fn composite_of<'a>(
    table: &Table,
    columns: &Columns,
    links: &'a Links,
    node: Option<u32>,
) -> NameRows<'a>
    requires columns { AreColumns table.now columns.now }
    requires links { AreLinks table.now links.now }
    ensures within { AreNameRows table.now result }
    ensures is { name_type table.now result ≡ name_type_in (composite_at table.now columns.now links.now) node }
{
    match node {
        None => no_name(),
        Some(node) => NameRows {
            declared: declared_of(columns, Some(node)),
            row: entry_at(links.composites, node as usize, 0),
            parameters: row_at(links.parameters, node as usize),
        },
    }
}
