ghost use Rattle.std.specs.Prelude.{◌≡◌, ◌∷◌, [], ◌++◌, Bool, ℕ, true, false, map, IfOk, OnOk, IsTrue, ◌↔◌, slice_index_or};
ghost use Rattle.std.specs.List.{flat_map};
ghost use Rattle.cr_check_types.specs.Types.{type_at};
ghost use Rattle.cr_meaning_operations.specs.Shapes.{guard_of, cells_with, repeated, shape_of};
ghost use Rattle.cr_exec_shapes.specs.Types.{Counted, IsSingle, sealed, sealed_if, looked_up, single_cells, AreStructures};

use crate::types::Types;
use cr_check_types::Shape;
use cr_memory::{Guard, Scalar};
use cr_rows::Row;
use cr_sequence::Times;
use cr_syntax::CType;
use std::alloc::{AllocError, Global};

/// The cells of each structure at its content (C11 6.7.2.1p15), as those of an object that isn't constant.
pub fn structures(alloc: Global, types: &Types) -> Result<Vec<Row<(Scalar, Guard)>>, AllocError>
    ensures { IfOk result (λ structures. AreStructures types.now structures.items) }
{
    let mut structures = Vec::new(alloc);
    for node in 0..types.count() {
        let cells = structure(alloc, types, &structures, types.members_at(node))?;
        structures.push(Row::from_vec(cells))?;
    }
    Ok(structures)
}

// The cells of members one behind another.
fn structure(
    alloc: Global,
    types: &Types,
    structures: &Vec<Row<(Scalar, Guard)>>,
    rows: &[u32],
) -> Result<Vec<(Scalar, Guard)>, AllocError>
    ensures { IfOk result (λ cells. cells.items
        ≡ flat_map (λ row. cells_with (looked_up structures.now.items) types.now false (type_at types.now.shapes row)) rows.now) }
{
    let mut cells = Vec::new(alloc);
    for row in rows {
        let own = cells_of(alloc, types, structures, *row)?;
        extend(&mut cells, &own)?;
    }
    Ok(cells)
}

// The cells of a row's type, by those of structures.
fn cells_of(
    alloc: Global,
    types: &Types,
    structures: &Vec<Row<(Scalar, Guard)>>,
    row: u32,
) -> Result<Vec<(Scalar, Guard)>, AllocError>
    ensures { IfOk result (λ cells. cells.items
        ≡ cells_with (looked_up structures.now.items) types.now false (type_at types.now.shapes row)) }
{
    let elements = types.elements(row);
    let one = single(alloc, types, structures, elements.shape)?;
    repeated(alloc, &one, elements.count)
}

// The cells of a row's type, by those of all structures: those of an element, and how often it comes.
pub(crate) fn object_cells(
    alloc: Global,
    types: &Types,
    structures: &Vec<Row<(Scalar, Guard)>>,
    row: u32,
) -> Result<Times<(Scalar, Guard)>, AllocError>
    requires { AreStructures types.now structures.now.items }
    ensures { IfOk result (λ cells. cells ≡ shape_of types.now (type_at types.now.shapes row)) }
{
    let elements = types.elements(row);
    let one = single(alloc, types, structures, elements.shape)?;
    elements_of(one, elements.count)
}

// The cells of elements one behind another, spelled out once. Elements without cells aren't counted.
fn elements_of(
    one: Vec<(Scalar, Guard)>,
    count: Option<u64>,
) -> Result<Times<(Scalar, Guard)>, AllocError>
    ensures { (n : ℕ) → Counted count 1 n → IfOk result (λ all. all ≡ repeated n one.items) }
{
    if is_none(&one) {
        return Times::new(one, 1);
    }
    match count {
        Some(count) => match u32::try_from(count) {
            Ok(times) => Times::new(one, times),
            Err(_) => Err(AllocError),
        },
        None => Err(AllocError),
    }
}

// The cells of what is no array.
fn single(
    alloc: Global,
    types: &Types,
    structures: &Vec<Row<(Scalar, Guard)>>,
    shape: Shape,
) -> Result<Vec<(Scalar, Guard)>, AllocError>
    ensures { IfOk result (λ cells. cells.items
        ≡ single_cells (looked_up structures.now.items) types.now shape.of shape.constant) }
{
    match shape.of {
        CType::Int(kind) => scalar(alloc, Scalar::Int(kind), shape.constant),
        CType::Pointer(below) => {
            scalar(alloc, Scalar::Pointer(types.number(below)), shape.constant)
        }
        CType::Struct(node) => {
            let cells = cells_at(structures, node);
            if shape.constant {
                sealed(alloc, cells)
            } else {
                copied(alloc, cells)
            }
        }
        _ => Ok(Vec::new(alloc)),
    }
}

fn scalar(alloc: Global, kind: Scalar, constant: bool) -> Result<Vec<(Scalar, Guard)>, AllocError>
    ensures { IfOk result (λ cells. cells.items ≡ (kind, guard_of constant) ∷ []) }
{
    let mut cells = Vec::new(alloc);
    cells.push((kind, guard_of(constant)))?;
    Ok(cells)
}

// What is defined const can't be written (6.7.3p6).
fn guard_of(constant: bool) -> Guard
    ensures { result ≡ guard_of constant }
{
    if constant {
        Guard::Constant
    } else {
        Guard::Free
    }
}

fn cells_at(structures: &Vec<Row<(Scalar, Guard)>>, node: u32) -> &[(Scalar, Guard)]
    ensures { result.now ≡ slice_index_or structures.now.items node [] }
{
    match structures.get(node as usize) {
        Some(cells) => cells.as_slice(),
        None => &[],
    }
}

fn sealed(alloc: Global, cells: &[(Scalar, Guard)]) -> Result<Vec<(Scalar, Guard)>, AllocError>
    ensures { IfOk result (λ all. all.items ≡ map sealed cells.now) }
{
    cells
        .iter()
        .map(|own| (own.0, Guard::Constant))
        .collect(alloc)
}

fn copied(alloc: Global, cells: &[(Scalar, Guard)]) -> Result<Vec<(Scalar, Guard)>, AllocError>
    ensures { IfOk result (λ all. all.items ≡ cells.now) }
{
    cells.iter().copied().collect(alloc)
}

// The cells of elements one behind another (6.2.5p20). Elements without cells aren't counted.
fn repeated(
    alloc: Global,
    one: &Vec<(Scalar, Guard)>,
    count: Option<u64>,
) -> Result<Vec<(Scalar, Guard)>, AllocError>
    ensures { (n : ℕ) → Counted count 1 n → IfOk result (λ all. all.items ≡ repeated n one.now.items) }
{
    if is_none(one) {
        return Ok(Vec::new(alloc));
    }
    match count {
        Some(count) => times_over(alloc, one, count),
        None => Err(AllocError),
    }
}

fn is_none(cells: &Vec<(Scalar, Guard)>) -> bool
    ensures { IsTrue result ↔ (cells.now.items ≡ []) }
{
    cells.is_empty()
}

#[tactic(auto, using(crate::proofs::Parts::repeated_more))]
fn times_over(
    alloc: Global,
    one: &Vec<(Scalar, Guard)>,
    count: u64,
) -> Result<Vec<(Scalar, Guard)>, AllocError>
    ensures { IfOk result (λ all. all.items ≡ repeated count one.now.items) }
{
    let mut all = Vec::new(alloc);
    for _turn in 0..count {
        extend(&mut all, one)?;
    }
    Ok(all)
}

fn extend(cells: &mut Vec<(Scalar, Guard)>, more: &Vec<(Scalar, Guard)>) -> Result<(), AllocError>
    ensures { OnOk result (cells.new.items ≡ cells.old.items ++ more.now.items) }
{
    for own in more {
        cells.push(*own)?;
    }
    Ok(())
}
