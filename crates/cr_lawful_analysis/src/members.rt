// Which structures the expressions of a unit name members of.
ghost use Rattle.std.specs.Prelude.{◌≡◌, ◌≤◌, IfOk, length};
ghost use Rattle.cr_check_operands.specs.Values.{room_of, valued_at};
ghost use Rattle.cr_check_expressions.specs.Ruled.{AreFacts, facts_at, pointed_structure};
ghost use Rattle.cr_lawful_analysis.specs.Members.{structure_of, structures_by, structures_of};

use cr_check::Checked;
use cr_check_expressions::{operand, value};
use cr_check_operands::{Fact, Value, structure_at};
use cr_check_types::Table;
use cr_rows::Row;
use cr_syntax::{Kind, Node, Unit};
use std::alloc::{AllocError, Global};

/// For each node of a unit that was checked the structure whose member it names (C11 6.5.2.3), by its content. The error is want of memory.
pub fn structures_of(
    alloc: Global,
    unit: &Unit,
    checked: &Checked,
) -> Result<Row<Option<u32>>, AllocError>
    requires { AreFacts checked.now.table checked.now.whole.typing.facts }
    ensures { IfOk result (λ structures. structures ≡ structures_of unit.now.nodes checked.now) }
{
    let facts = checked.whole.typing.facts.as_slice();
    structures(alloc, unit.nodes.as_slice(), &checked.table, facts)
}

// The same of nodes that have these facts.
fn structures(
    alloc: Global,
    nodes: &[Node],
    table: &Table,
    facts: &[Fact],
) -> Result<Row<Option<u32>>, AllocError>
    requires { AreFacts table.now facts.now }
    ensures { IfOk result (λ structures. structures ≡ structures_by (facts_at table.now facts.now) nodes.now) }
{
    let mut structures = Row::new(alloc);
    for node in nodes {
        structures.push(structure_of(table, facts, node))?;
    }
    Ok(structures)
}

fn structure_of(table: &Table, facts: &[Fact], node: &Node) -> Option<u32>
    requires { AreFacts table.now facts.now }
    ensures { result ≡ structure_of (facts_at table.now facts.now) node.now }
{
    let parts = node.parts.as_slice();
    match node.kind {
        Kind::Member => structure_at(table, operand(table, facts, parts, 0).row),
        Kind::PointerMember => pointed_structure(table, value(table, facts, parts, 0)),
        _ => None,
    }
}

// The structure that a pointer points to.
fn pointed_structure(table: &Table, operand: Value) -> Option<u32>
    requires { room_of operand ≤ length table.now }
    ensures { result ≡ pointed_structure (valued_at table.now operand) }
{
    match operand {
        Value::Pointer(to) => structure_at(table, to),
        Value::Integer(_) => None,
        Value::Structure(_) => None,
        Value::Array(_) => None,
        Value::Void => None,
        Value::Unknown => None,
    }
}
