ghost use Rattle.std.specs.Prelude.{◌≡◌, IfOk};
ghost use Rattle.cr_check_types.specs.Types.{type_at, unknown, IsRow};
ghost use Rattle.cr_check_initialisers.specs.Known.{known_of};
ghost use Rattle.cr_check_initialisers.specs.Plans.{IsPlan, entries_of, length_asked};
ghost use Rattle.cr_check_initialised.specs.Known.{known_at};

use cr_check_declarations::{Columns, Tree};
use cr_check_initialisers::{Anchor, Line, Source, length_asked, plan};
use cr_check_types::Table;
use std::alloc::{AllocError, Global};

/// What initialisers ask of the nodes so far.
pub(crate) fn source_of<'a>(
    table: &'a Table,
    tree: &'a Tree<'a>,
    columns: &'a Columns<'a>,
    anchors: &'a [Anchor],
) -> Source<'a>
    requires { IsRow table.now 0 unknown }
    ensures table { result.table.now ≡ table.now }
    ensures known { known_of result ≡ known_at table.now tree.now.nodes.now columns.now anchors.now }
{
    Source {
        table,
        nodes: tree.nodes,
        facts: columns.facts,
        anchors,
        layouts: columns.layouts,
        members: columns.members,
    }
}

/// The plan of the initialiser `node` of an object of a row's type, which stands in the initialised declarator `above`.
pub(crate) fn planned(
    alloc: Global,
    table: &Table,
    tree: &Tree,
    columns: &Columns,
    anchors: &[Anchor],
    row: u32,
    above: u32,
    node: u32,
) -> Result<Vec<Line>, AllocError>
    requires { IsRow table.now 0 unknown }
    ensures { IfOk result (λ lines. IsPlan (known_at table.now tree.now.nodes.now columns.now anchors.now) (type_at table.now row) above node (entries_of table.now lines.items)) }
{
    let source = source_of(table, tree, columns, anchors);
    plan(alloc, &source, row, above, node)
}

/// How many elements the plan of an array of unknown size asks for.
pub(crate) fn asked(
    table: &Table,
    tree: &Tree,
    columns: &Columns,
    anchors: &[Anchor],
    row: u32,
    lines: &[Line],
) -> Result<u64, AllocError>
    requires { IsRow table.now 0 unknown }
    ensures { IfOk result (λ n. n ≡ length_asked (known_at table.now tree.now.nodes.now columns.now anchors.now) (type_at table.now row) (entries_of table.now lines.now)) }
{
    let source = source_of(table, tree, columns, anchors);
    length_asked(&source, row, lines)
}
