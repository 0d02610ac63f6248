// Where the members of structures stand.
ghost use Rattle.std.specs.Prelude.{◌≡◌, ◌≤◌, [], ℕ, IfOk, OnOk, length, sum_by, take, slice_index_or};
ghost use Rattle.cr_typed.specs.Typed.{IsTyped, row_cells, MOST_CELLS};
ghost use Rattle.cr_exec_shapes.specs.Types.{AreOffsets, AreSums};

use cr_rows::Row;
use cr_typed::Typed;
use std::alloc::{AllocError, Global};

/// The scalars in a row's type.
#[tactic(auto, using(cr_check_types::proofs::Tables::beyond))]
pub(crate) fn cells_in(typed: &Typed, row: u32) -> u32
    requires { IsTyped typed.now }
    ensures { result ≡ row_cells typed.now row }
{
    if (row as usize) < typed.shapes.len() {
        let layouts = typed.layouts.as_slice();
        typed.shapes.layout(layouts, row).cells as u32
    } else {
        0
    }
}

/// The cells before a member, by those of its structure.
pub(crate) fn before_member(offsets: &[u32], index: usize) -> u32
    ensures { result ≡ slice_index_or offsets.now index 0 }
{
    if index < offsets.len() {
        offsets[index]
    } else {
        0
    }
}

/// For each node the cells before each of its members, and those of all. The error is want of memory.
#[tactic(auto, using(crate::proofs::Sums::offsets_all, crate::proofs::Rows::members_sum))]
pub(crate) fn offsets(alloc: Global, typed: &Typed) -> Result<Vec<Row<u32>>, AllocError>
    requires { IsTyped typed.now }
    ensures { IfOk result (λ offsets. AreOffsets typed.now offsets.items) }
{
    let count = typed.members.len();
    let mut offsets = Vec::with_capacity(alloc, count)?;
    for node in 0..count {
        offsets.push(sums(alloc, typed, members_at(typed, node))?)?;
    }
    Ok(offsets)
}

fn members_at(typed: &Typed, node: usize) -> &[u32]
    ensures { result.now ≡ slice_index_or typed.now.members node [] }
{
    match typed.members.as_slice().get(node) {
        Some(row) => row.as_slice(),
        None => &[],
    }
}

// The last entry counts all members, and is left out where that is nothing, so that a node without members takes no memory.
#[tactic(auto, using(crate::proofs::Sums::sums_with_all, crate::proofs::Sums::sums_of_nothing))]
fn sums(alloc: Global, typed: &Typed, members: &[u32]) -> Result<Row<u32>, AllocError>
    requires typed { IsTyped typed.now }
    requires fit { sum_by (row_cells typed.now) members.now ≤ MOST_CELLS }
    ensures { IfOk result (λ sums. AreSums typed.now members.now sums) }
{
    let mut sums = Row::new(alloc);
    let mut cells = 0;
    for at in 0..members.len() {
        sums.push(cells)?;
        cells += cells_in(typed, members[at]);
    }
    if cells > 0 {
        sums.push(cells)?;
    }
    Ok(sums)
}
