// Rows of types in the table of the unit.
ghost use Rattle.std.specs.Prelude.{◌≡◌, ◌<◌, IfOk, OnOk, length, map};
ghost use Rattle.cr_check_types.specs.Types.{type_at, IsRow, Grows};
ghost use Rattle.cr_check_types.specs.Shared.{levels_of, IsWithAll};
ghost use Rattle.cr_typed_columns.specs.Rows.{levels_of_all, type_in, AreKept, AreRowsOf};

use crate::copying::{copied, copied_once};
use cr_check_types::{Shape, Table};
use cr_rows::Row;
use cr_syntax::CType;
use std::alloc::{AllocError, Global};

/// A type.
#[derive(Clone, Copy)]
pub(crate) enum Named {
    /// What a row of the checked table has.
    Row(u32),
    /// The function of a node.
    Function(u32),
}

fn row_of(alloc: Global, table: &mut Table, from: &Table, named: Named) -> Result<u32, AllocError>
    ensures made { IfOk result (λ r. IsRow table.new r (type_in (type_at from.now) named)) }
    ensures grows { OnOk result (Grows table.old table.new) }
    ensures levels { OnOk result (IsWithAll table.old (levels_of (type_in (type_at from.now) named)) table.new) }
{
    match named {
        Named::Row(row) => copied(alloc, table, from, row),
        Named::Function(node) => function(table, node),
    }
}

#[tactic(auto, using(crate::proofs::Copies::with_one))]
fn function(table: &mut Table, node: u32) -> Result<u32, AllocError>
    ensures made { IfOk result (λ r. IsRow table.new r (type_in (type_at table.old) (Named.Function node))) }
    ensures grows { OnOk result (Grows table.old table.new) }
    ensures levels { OnOk result (IsWithAll table.old (levels_of (type_in (type_at table.old) (Named.Function node))) table.new) }
{
    table.add(Shape::plain(CType::Function(node)))
}

/// The rows of types. The error is want of memory.
pub(crate) fn rows(
    alloc: Global,
    table: &mut Table,
    from: &Table,
    types: &[Named],
) -> Result<Row<u32>, AllocError>
    ensures made { IfOk result (λ rows. AreRowsOf table.new (map (type_in (type_at from.now)) types.now) rows) }
    ensures grows { OnOk result (Grows table.old table.new) }
    ensures levels { OnOk result (IsWithAll table.old (levels_of_all (map (type_in (type_at from.now)) types.now)) table.new) }
{
    let mut rows = Row::new(alloc);
    for named in types {
        let row = row_of(alloc, table, from, *named)?;
        rows.push(row)?;
    }
    Ok(rows)
}

fn row_once(
    alloc: Global,
    table: &mut Table,
    from: &Table,
    known: &mut Vec<Option<u32>>,
    named: Named,
) -> Result<u32, AllocError>
    requires { AreKept from.now table.old known.old.items }
    ensures made { IfOk result (λ r. IsRow table.new r (type_in (type_at from.now) named)) }
    ensures grows { OnOk result (Grows table.old table.new) }
    ensures levels { OnOk result (IsWithAll table.old (levels_of (type_in (type_at from.now) named)) table.new) }
    ensures kept { OnOk result (AreKept from.now table.new known.new.items) }
{
    match named {
        Named::Row(row) => copied_once(alloc, table, from, known, row),
        Named::Function(node) => {
            let row = function(table, node)?;
            Ok(row)
        }
    }
}

/// The same, where types come again and again: each row is copied once. The error is want of memory.
#[tactic(auto, using(crate::proofs::Kept::none_kept))]
pub(crate) fn rows_once(
    alloc: Global,
    table: &mut Table,
    from: &Table,
    types: &[Named],
) -> Result<Row<u32>, AllocError>
    ensures made { IfOk result (λ rows. AreRowsOf table.new (map (type_in (type_at from.now)) types.now) rows) }
    ensures grows { OnOk result (Grows table.old table.new) }
    ensures levels { OnOk result (IsWithAll table.old (levels_of_all (map (type_in (type_at from.now)) types.now)) table.new) }
{
    let mut known = vec![in alloc; None; from.len()]?;
    let mut rows = Row::new(alloc);
    for named in types {
        let row = row_once(alloc, table, from, &mut known, *named)?;
        rows.push(row)?;
    }
    Ok(rows)
}
