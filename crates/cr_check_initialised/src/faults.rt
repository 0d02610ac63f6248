ghost use Rattle.std.specs.Prelude.{◌≡◌, ◌<◌, ◌-◌, IfSome, length, slice_get};
ghost use Rattle.cr_check_types.specs.Types.{type_at, unknown, IsRow};
ghost use Rattle.cr_check_operands.specs.Places.{found_by};
ghost use Rattle.cr_check_expressions.specs.Breaks.{first_of};
ghost use Rattle.cr_check_initialisers.specs.Plans.{entries_of};
ghost use Rattle.cr_check_initialisers.specs.Faults.{plan_faults};
ghost use Rattle.cr_check_declarations.specs.Before.{before_at};
ghost use Rattle.cr_check_initialised.specs.Known.{known_at, AreReady};
ghost use Rattle.cr_check_initialised.specs.Initialised.{object_at};
ghost use Rattle.cr_check_initialised.specs.Faults.{is_overfull, equals_before, faults_in};

use crate::durations::is_static;
use crate::initialised::{is_open, object_in};
use crate::source::source_of;
use cr_check_declarations::{Columns, Tree, fault_at, first_of, token_if};
use cr_check_declarators::MOST_CELLS;
use cr_check_expressions::{Break, lesser, part_at};
use cr_check_initialisers::{Anchor, Line, first_fault};
use cr_check_types::{Layout, Table};
use cr_syntax::{Kind, Node};

/// The first constraint that an initialised declarator breaks by what it initialises: K7 of an array that its initialiser completes,
/// K11, K12, K13 and K37. `bracket` is that of the declarator without a size, `row` that of the completed type, and the lines are those
/// of the plan.
pub fn initialiser_break(
    table: &Table,
    tree: &Tree,
    columns: &Columns,
    anchors: &[Anchor],
    bracket: Option<u32>,
    row: u32,
    lines: &[Line],
    at: u32,
    node: &Node,
) -> Option<Break>
    requires ready { AreReady table.now columns.now }
    requires row { row < length table.now }
    ensures { result ≡ first_of (faults_in node.now.kind (known_at table.now tree.now.nodes.now columns.now anchors.now) tree.now (before_at table.now columns.now) bracket (object_at table.now columns.now node.now) (type_at table.now row) (entries_of table.now lines.now) at node.now) }
{
    match node.kind {
        Kind::InitDeclarator => {
            let object = object_in(table, columns, node);
            let overfull = is_overfull(table, columns.layouts, object, row);
            let is_static = is_static(tree, columns, Some(at));
            let equals = equals_before(tree, node);
            let plan = plan_fault(table, tree, columns, anchors, is_static, equals, lines);
            lesser(fault_at(7, token_if(overfull, bracket)), plan)
        }
        _ => None,
    }
}

fn is_overfull(table: &Table, layouts: &[Layout], object: Option<u32>, row: u32) -> bool
    requires object { IfSome object (λ r. r < length table.now) }
    requires row { row < length table.now }
    ensures { result ≡ is_overfull layouts.now (found_by (type_at table.now) object) (type_at table.now row) }
{
    match object {
        None => false,
        Some(object) => is_open(table, object) && table.layout(layouts, row).cells > MOST_CELLS,
    }
}

fn equals_before(tree: &Tree, node: &Node) -> u32
    ensures { result ≡ equals_before tree.now.nodes.now node.now }
{
    first_of(tree.nodes, part_at(node.parts.as_slice(), 1)).saturating_sub(1)
}

#[tactic(auto, using(crate::proofs::Kept::first_row))]
fn plan_fault(
    table: &Table,
    tree: &Tree,
    columns: &Columns,
    anchors: &[Anchor],
    is_static: bool,
    equals: u32,
    lines: &[Line],
) -> Option<Break>
    requires { AreReady table.now columns.now }
    ensures { result ≡ first_of (plan_faults (known_at table.now tree.now.nodes.now columns.now anchors.now) is_static equals (entries_of table.now lines.now)) }
{
    let source = source_of(table, tree, columns, anchors);
    first_fault(&source, is_static, equals, lines)
}
