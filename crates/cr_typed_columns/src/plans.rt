// Members and initialisers, with rows of the unit's table.
ghost use Rattle.std.specs.Prelude.{◌≡◌, ◌<◌, ℕ, IfOk, OnOk, length, map, slice_index_or, []};
ghost use Rattle.cr_check_types.specs.Types.{Qualified, type_at, Grows};
ghost use Rattle.cr_check_types.specs.Shared.{levels_of, IsWithAll};
ghost use Rattle.cr_typed_columns.specs.Rows.{type_in, levels_of_all, levels_upto, put_entry, put_type, AreRowsOf, ArePuts, AreAllRows, AreAllPuts};
ghost use Rattle.cr_typed_columns.specs.Columns.{is_structure, member_type, member_types, plan_entries, plan_types};

use crate::checked::CheckedColumns;
use crate::copying::copied;
use crate::rows::{Named, rows};
use cr_check_expressions::Member;
use cr_check_initialisers::puts;
use cr_check_types::Table;
use cr_rows::{Row, row_at};
use cr_syntax::{Kind, Node, kind_at};
use cr_typed::Put;
use std::alloc::{AllocError, Global};

// ---- members

fn is_structure(kind: Option<Kind>) -> bool
    ensures { result ≡ is_structure kind }
{
    match kind {
        Some(Kind::StructContent) => true,
        _ => false,
    }
}

fn types_of(
    alloc: Global,
    checked: &CheckedColumns,
    members: &[Member],
) -> Result<Vec<Named>, AllocError>
    ensures { IfOk result (λ types. map (type_in (type_at checked.now.table.now)) types.items ≡ map (member_type (type_at checked.now.table.now)) members.now) }
{
    let mut types = Vec::new(alloc);
    for member in members {
        types.push(Named::Row(member.row))?;
    }
    Ok(types)
}

// The rows of the members of a node that is a structure.
fn member_rows(
    alloc: Global,
    table: &mut Table,
    nodes: &[Node],
    checked: &CheckedColumns,
    at: usize,
) -> Result<Row<u32>, AllocError>
    ensures made { IfOk result (λ rows. AreRowsOf table.new (member_types nodes.now checked.now at) rows) }
    ensures grows { OnOk result (Grows table.old table.new) }
    ensures levels { OnOk result (IsWithAll table.old (levels_of_all (member_types nodes.now checked.now at)) table.new) }
{
    if is_structure(kind_at(nodes, at)) {
        let types = types_of(alloc, checked, row_at(checked.members, at))?;
        rows(alloc, table, checked.table, &types)
    } else {
        rows(alloc, table, checked.table, &[])
    }
}

/// The rows of the members of each structure.
pub(crate) fn members(
    alloc: Global,
    table: &mut Table,
    nodes: &[Node],
    checked: &CheckedColumns,
) -> Result<Row<Row<u32>>, AllocError>
    ensures made { IfOk result (λ members. AreAllRows table.new (member_types nodes.now checked.now) (length nodes.now) members) }
    ensures grows { OnOk result (Grows table.old table.new) }
    ensures levels { OnOk result (IsWithAll table.old (levels_upto (member_types nodes.now checked.now) (length nodes.now)) table.new) }
{
    let mut members = Row::new(alloc);
    for at in 0..nodes.len() {
        let rows = member_rows(alloc, table, nodes, checked, at)?;
        members.push(rows)?;
    }
    Ok(members)
}

// ---- initialisers

fn copied_put(alloc: Global, table: &mut Table, from: &Table, put: Put) -> Result<Put, AllocError>
    ensures made { IfOk result (λ p. (p.row < length table.new) × (put_entry table.new p ≡ put_entry from.now put)) }
    ensures grows { OnOk result (Grows table.old table.new) }
    ensures levels { OnOk result (IsWithAll table.old (levels_of (put_type from.now put)) table.new) }
{
    let row = copied(alloc, table, from, put.row)?;
    Ok(Put { row, ..put })
}

fn copied_puts(
    alloc: Global,
    table: &mut Table,
    from: &Table,
    given: &[Put],
) -> Result<Row<Put>, AllocError>
    ensures made { IfOk result (λ puts. ArePuts table.new (map (put_entry from.now) given.now) puts) }
    ensures grows { OnOk result (Grows table.old table.new) }
    ensures levels { OnOk result (IsWithAll table.old (levels_of_all (map (put_type from.now) given.now)) table.new) }
{
    let mut puts = Row::new(alloc);
    for put in given {
        let made = copied_put(alloc, table, from, *put)?;
        puts.push(made)?;
    }
    Ok(puts)
}

fn plan(
    alloc: Global,
    table: &mut Table,
    checked: &CheckedColumns,
    at: usize,
) -> Result<Row<Put>, AllocError>
    ensures made { IfOk result (λ puts. ArePuts table.new (plan_entries checked.now at) puts) }
    ensures grows { OnOk result (Grows table.old table.new) }
    ensures levels { OnOk result (IsWithAll table.old (levels_of_all (plan_types checked.now at)) table.new) }
{
    let given = puts(alloc, row_at(checked.lines, at))?;
    copied_puts(alloc, table, checked.table, given.as_slice())
}

/// What the initialisers of each initialised declarator initialise.
pub(crate) fn plans(
    alloc: Global,
    table: &mut Table,
    nodes: usize,
    checked: &CheckedColumns,
) -> Result<Row<Row<Put>>, AllocError>
    ensures made { IfOk result (λ plans. AreAllPuts table.new (plan_entries checked.now) nodes plans) }
    ensures grows { OnOk result (Grows table.old table.new) }
    ensures levels { OnOk result (IsWithAll table.old (levels_upto (plan_types checked.now) nodes) table.new) }
{
    let mut plans = Row::new(alloc);
    for at in 0..nodes {
        let plan = plan(alloc, table, checked, at)?;
        plans.push(plan)?;
    }
    Ok(plans)
}
