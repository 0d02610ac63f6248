// What the types of rows take.
ghost use Rattle.std.specs.Prelude.{◌≡◌, ◌<◌, IfOk, IsTrue, length, slice_index_or};
ghost use Rattle.std.specs.List.{list_all, sum_by};
ghost use Rattle.cr_check_types.specs.Types.{type_at};
ghost use Rattle.cr_check_types.specs.Layouts.{fitted};
ghost use Rattle.cr_typed_fit.specs.Fits.{AreExtents, HasRoom, AreMembers, AreSuited, extent_of, no_extent, is_small, is_before, cells_in, times_over};

use cr_check_types::{Layout, Shape, Table};
use cr_rows::{Row, entry_at};
use cr_syntax::CType;
use cr_typed::Typed;
use std::alloc::{AllocError, Global};

const MOST_CELLS: u64 = 1_048_576;

/// What a type takes.
#[derive(Clone, Copy)]
pub(crate) struct Extent {
    /// Its cells; numbers that don't fit count as the greatest.
    pub(crate) cells: u64,
    /// The structure that it is, or that the elements of its arrays are.
    pub(crate) structure: Option<u32>,
}

const NO_EXTENT: Extent = Extent {
    cells: 0,
    structure: None,
};

/// What the type of each row takes.
#[tactic(auto, using(crate::proofs::Rows::extents_more))]
pub(crate) fn extents_of(
    alloc: Global,
    table: &Table,
    layouts: &[Layout],
) -> Result<Vec<Extent>, AllocError>
    ensures { IfOk result (λ extents. AreExtents table.now layouts.now (length table.now) extents.items) }
{
    let mut extents = Vec::new(alloc);
    for at in 0..table.len() {
        let row = u32::try_from(at).map_err(|_| AllocError)?;
        extents.push(extent_at(table, layouts, &extents, row))?;
    }
    Ok(extents)
}

fn extent_at(table: &Table, layouts: &[Layout], extents: &[Extent], row: u32) -> Extent
    requires row { row < length table.now }
    requires before { AreExtents table.now layouts.now row extents.now }
    ensures { result ≡ extent_of layouts.now (type_at table.now row) }
{
    match table.shape(row).of {
        CType::Array(below, count) => repeated(taken_by(extents, below), count),
        CType::Struct(node) => Extent {
            cells: table.layout(layouts, row).cells,
            structure: Some(node),
        },
        _ => Extent {
            cells: table.layout(layouts, row).cells,
            structure: None,
        },
    }
}

fn repeated(one: Extent, count: u64) -> Extent
    ensures { result ≡ times_over count one }
{
    Extent {
        cells: count.saturating_mul(one.cells),
        structure: one.structure,
    }
}

fn taken_by(extents: &[Extent], row: u32) -> Extent
    ensures { result ≡ slice_index_or extents.now row no_extent }
{
    entry_at(extents, row as usize, NO_EXTENT)
}

/// Whether types have the cells and structures that the constraints let them have.
pub(crate) fn has_room(typed: &Typed, extents: &[Extent]) -> bool
    ensures only { IsTrue result → HasRoom typed.now extents.now }
    ensures every { HasRoom typed.now extents.now → IsTrue result }
{
    are_small(extents) && have_members(extents, typed.members.as_slice())
}

fn are_small(extents: &[Extent]) -> bool
    ensures { result ≡ list_all is_small extents.now }
{
    extents.iter().all(|extent| is_small(*extent))
}

fn is_small(extent: Extent) -> bool
    ensures { result ≡ is_small extent }
{
    extent.cells <= MOST_CELLS
}

#[tactic(auto, using(crate::proofs::Rows::members_more, crate::proofs::Rows::members_all))]
fn have_members(extents: &[Extent], members: &[Row<u32>]) -> bool
    ensures only { IsTrue result → AreMembers extents.now members.now }
    ensures every { AreMembers extents.now members.now → IsTrue result }
{
    for at in 0..members.len() {
        if !are_suited(extents, members[at].as_slice(), at) {
            return false;
        }
    }
    true
}

fn are_suited(extents: &[Extent], rows: &[u32], node: usize) -> bool
    ensures only { IsTrue result → AreSuited extents.now node rows.now }
    ensures every { AreSuited extents.now node rows.now → IsTrue result }
{
    cells_of(extents, rows) <= MOST_CELLS && are_before(extents, rows, node)
}

fn are_before(extents: &[Extent], rows: &[u32], node: usize) -> bool
    ensures { result ≡ list_all (λ row. is_before node (slice_index_or extents.now row no_extent).structure) rows.now }
{
    rows.iter()
        .all(|row| is_before(node, taken_by(extents, *row).structure))
}

fn is_before(node: usize, structure: Option<u32>) -> bool
    ensures { result ≡ is_before node structure }
{
    match structure {
        Some(inner) => (inner as usize) < node,
        None => true,
    }
}

// The cells of these together; a number that doesn't fit counts as the greatest.
fn cells_of(extents: &[Extent], rows: &[u32]) -> u64
    ensures { result ≡ fitted (sum_by (cells_in extents.now) rows.now) }
{
    let mut sum: u64 = 0;
    for row in rows {
        sum = sum.saturating_add(taken_by(extents, *row).cells);
    }
    sum
}
