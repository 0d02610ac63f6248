ghost use Rattle.std.specs.Prelude.{◌≡◌, ◌<◌, IfOk, OnOk, length, map};
ghost use Rattle.cr_check_types.specs.Types.{type_at, IsRow, Grows};
ghost use Rattle.cr_check_types.specs.Relations.{AreRows, composite_of, bare};
ghost use Rattle.cr_check_linkage.specs.NameTypes.{AreNameRows, name_type, type_or, parameters_or, joined_type, composite_type, composite_parameters};

use crate::name_type::{NameRows, types_agree};
use cr_check_expressions::Declared;
use cr_check_types::Table;
use cr_rows::Row;
use std::alloc::{AllocError, Global};

/// The rows of a type that declarations of a name make together.
#[derive(Drop)]
pub struct TypeRows {
    /// The row of the object's type, or of what the function gives.
    pub row: u32,
    /// The rows of the types of the function's parameters.
    pub parameters: Row<u32>,
}

/// The composite type of a name's earlier declarations and its own, where they are compatible (C11 6.2.7p3), else its own. The error is
/// want of memory.
#[tactic(auto, using(crate::proofs::Rows::own_type, crate::proofs::Rows::own_parameters, crate::proofs::Rows::joined_last, crate::proofs::Rows::joined_both))]
pub(crate) fn joined(
    alloc: Global,
    table: &mut Table,
    earlier: NameRows,
    own: NameRows,
) -> Result<TypeRows, AllocError>
    requires earlier { AreNameRows table.old earlier }
    requires own { AreNameRows table.old own }
    ensures within { IfOk result (λ j. AreRows table.new j.parameters) }
    ensures row { IfOk result (λ j. IsRow table.new j.row (type_or (type_at table.old own.entry.row) (joined_type (name_type table.old earlier.entry) (name_type table.old own.entry)))) }
    ensures parameters { IfOk result (λ j. map (type_at table.new) j.parameters ≡ parameters_or (map (type_at table.old) own.entry.parameters.now) (joined_type (name_type table.old earlier.entry) (name_type table.old own.entry))) }
    ensures grows { OnOk result (Grows table.old table.new) }
{
    if types_agree(table, earlier, own) {
        composite(alloc, table, earlier, own)
    } else {
        kept(alloc, own)
    }
}

/// The rows of a name's own type.
pub(crate) fn kept(alloc: Global, own: NameRows) -> Result<TypeRows, AllocError>
    ensures row { IfOk result (λ j. j.row ≡ own.entry.row) }
    ensures parameters { IfOk result (λ j. j.parameters ≡ own.entry.parameters.now) }
{
    Ok(TypeRows {
        row: own.row,
        parameters: copied(alloc, own.parameters)?,
    })
}

fn copied(alloc: Global, rows: &[u32]) -> Result<Row<u32>, AllocError>
    ensures { IfOk result (λ copy. copy ≡ rows.now) }
{
    Ok(Row::from_vec(rows.to_vec(alloc)?))
}

#[tactic(auto, using(crate::proofs::Rows::copied_types, crate::proofs::Rows::copied_within))]
fn composite(
    alloc: Global,
    table: &mut Table,
    earlier: NameRows,
    own: NameRows,
) -> Result<TypeRows, AllocError>
    requires earlier { AreNameRows table.old earlier }
    requires own { AreNameRows table.old own }
    ensures within { IfOk result (λ j. AreRows table.new j.parameters) }
    ensures row { IfOk result (λ j. IsRow table.new j.row (type_or (type_at table.old own.entry.row) (composite_type (name_type table.old earlier.entry) (name_type table.old own.entry)))) }
    ensures parameters { IfOk result (λ j. map (type_at table.new) j.parameters ≡ parameters_or (map (type_at table.old) own.entry.parameters.now) (composite_type (name_type table.old earlier.entry) (name_type table.old own.entry))) }
    ensures grows { OnOk result (Grows table.old table.new) }
{
    match (earlier.declared, own.declared) {
        (Declared::Object(..), Declared::Object(..)) => {
            let parameters = copied(alloc, own.parameters)?;
            let row = table.composite(earlier.row, own.row)?;
            Ok(TypeRows { row, parameters })
        }
        (Declared::Function(..), Declared::Function(..)) => {
            let parameters = composite_parameters(
                alloc,
                table,
                earlier.parameters,
                own.parameters,
            )?;
            let row = table.composite(earlier.row, own.row)?;
            Ok(TypeRows { row, parameters })
        }
        _ => kept(alloc, own),
    }
}

fn composite_parameters(
    alloc: Global,
    table: &mut Table,
    earlier: &[u32],
    own: &[u32],
) -> Result<Row<u32>, AllocError>
    requires earlier { AreRows table.old earlier.now }
    requires own { AreRows table.old own.now }
    ensures within { IfOk result (λ rows. AreRows table.new rows) }
    ensures is { IfOk result (λ rows. map (type_at table.new) rows ≡ composite_parameters (map (type_at table.old) earlier.now) (map (type_at table.old) own.now)) }
    ensures grows { OnOk result (Grows table.old table.new) }
{
    let mut rows = Vec::new(alloc);
    let count = earlier.len().min(own.len());
    for k in 0..count {
        let row = composite_bare(table, earlier[k], own[k])?;
        rows.push(row)?;
    }
    Ok(Row::from_vec(rows))
}

// The composite type of two parameters, without their own qualifiers (6.7.6.3p15).
fn composite_bare(table: &mut Table, earlier: u32, own: u32) -> Result<u32, AllocError>
    requires earlier { earlier < length table.old }
    requires own { own < length table.old }
    ensures made { IfOk result (λ r. IsRow table.new r (composite_of (bare (type_at table.old earlier)) (bare (type_at table.old own)))) }
    ensures grows { OnOk result (Grows table.old table.new) }
{
    let one = table.bare(earlier)?;
    let other = table.bare(own)?;
    table.composite(one, other)
}
