ghost use Rattle.std.specs.Prelude.{◌≡◌, ℕ, [], None, map, IfOk, slice_index_or};
ghost use Rattle.cr_ints.specs.declared.kind.IntKind.TheVariants.{Char};
ghost use Rattle.cr_memory.specs.declared.value.Scalar.TheVariants.{Int};
ghost use Rattle.cr_memory.specs.declared.value.Guard.TheVariants.{Literal};
ghost use Rattle.cr_check_types.specs.Types.{type_at};
ghost use Rattle.cr_meaning_operations.specs.Shapes.{shape_of};
ghost use Rattle.cr_meaning_operations.specs.Operations.{kind_at, object_shape, literal_by, byte_cell};
ghost use Rattle.cr_exec_shapes.specs.Types.{AreStructures};

use crate::cells::object_cells;
use crate::types::Types;
use cr_ints::{IntKind, convert};
use cr_memory::{Cell, Guard, Scalar};
use cr_rows::Row;
use cr_sequence::Times;
use cr_syntax::Kind;
use std::alloc::{AllocError, Global};

/// For each node the kinds and guards of the cells of the object that it declares, or of the literal that it is.
pub fn shapes(
    alloc: Global,
    types: &Types,
    structures: &Vec<Row<(Scalar, Guard)>>,
) -> Result<Row<Times<(Scalar, Guard)>>, AllocError>
    requires { AreStructures types.now structures.now.items }
    ensures { IfOk result (λ shapes. (node : ℕ)
        → slice_index_or shapes node [] ≡ object_shape types.now node (kind_at types.now node)) }
{
    let mut shapes = Vec::new(alloc);
    for node in 0..types.count() {
        shapes.push(object_shape(alloc, types, structures, node)?)?;
    }
    Ok(Row::from_vec(shapes))
}

fn object_shape(
    alloc: Global,
    types: &Types,
    structures: &Vec<Row<(Scalar, Guard)>>,
    node: u32,
) -> Result<Times<(Scalar, Guard)>, AllocError>
    requires { AreStructures types.now structures.now.items }
    ensures { IfOk result (λ shape. shape ≡ object_shape types.now node (kind_at types.now node)) }
{
    match types.kind(node) {
        Kind::Text => literal_shape(alloc, text(types, node)),
        _ => shape(alloc, types, structures, types.named_row(node)),
    }
}

fn shape(
    alloc: Global,
    types: &Types,
    structures: &Vec<Row<(Scalar, Guard)>>,
    row: u32,
) -> Result<Times<(Scalar, Guard)>, AllocError>
    requires { AreStructures types.now structures.now.items }
    ensures { IfOk result (λ shape. shape ≡ shape_of types.now (type_at types.now.shapes row)) }
{
    object_cells(alloc, types, structures, row)
}

fn literal_shape(alloc: Global, text: &[u8]) -> Result<Times<(Scalar, Guard)>, AllocError>
    ensures { IfOk result (λ shape. shape ≡ map (λ byte. (Int Char, Literal)) text.now) }
{
    Times::new(char_cells(alloc, text)?, 1)
}

fn char_cells(alloc: Global, text: &[u8]) -> Result<Vec<(Scalar, Guard)>, AllocError>
    ensures { IfOk result (λ cells. cells.items ≡ map (λ byte. (Int Char, Literal)) text.now) }
{
    text.iter()
        .map(|_| (Scalar::Int(IntKind::Char), Guard::Literal))
        .collect(alloc)
}

/// For each string literal its bytes (C11 6.4.5p6).
pub fn literals(alloc: Global, types: &Types) -> Result<Row<Option<Row<Cell>>>, AllocError>
    ensures { IfOk result (λ literals. (node : ℕ)
        → slice_index_or literals node None ≡ literal_by types.now node (kind_at types.now node)) }
{
    let mut literals = Vec::new(alloc);
    for node in 0..types.count() {
        literals.push(literal(alloc, types, node)?)?;
    }
    Ok(Row::from_vec(literals))
}

fn literal(alloc: Global, types: &Types, node: u32) -> Result<Option<Row<Cell>>, AllocError>
    ensures { IfOk result (λ literal. literal ≡ literal_by types.now node (kind_at types.now node)) }
{
    match types.kind(node) {
        Kind::Text => Ok(Some(bytes(alloc, text(types, node))?)),
        _ => Ok(None),
    }
}

fn bytes(alloc: Global, text: &[u8]) -> Result<Row<Cell>, AllocError>
    ensures { IfOk result (λ cells. cells ≡ map byte_cell text.now) }
{
    Ok(Row::from_vec(byte_cells(alloc, text)?))
}

fn byte_cells(alloc: Global, text: &[u8]) -> Result<Vec<Cell>, AllocError>
    ensures { IfOk result (λ cells. cells.items ≡ map byte_cell text.now) }
{
    text.iter().map(|byte| byte_cell(*byte)).collect(alloc)
}

// A byte as a value of char.
fn byte_cell(byte: u8) -> Cell
    ensures { result ≡ byte_cell byte }
{
    Cell::Number(convert(i128::from(byte), IntKind::Char))
}

fn text<'a>(types: &Types<'a>, node: u32) -> &'a [u8]
    ensures { result.now ≡ slice_index_or types.now.texts node [] }
{
    match types.typed().texts.as_slice().get(node as usize) {
        Some(text) => text.as_slice(),
        None => &[],
    }
}

/// For each row of types the kinds of its cells.
pub fn kinds(
    alloc: Global,
    types: &Types,
    structures: &Vec<Row<(Scalar, Guard)>>,
) -> Result<Row<Times<Scalar>>, AllocError>
    requires { AreStructures types.now structures.now.items }
    ensures { IfOk result (λ kinds. (row : ℕ)
        → slice_index_or kinds row [] ≡ map (λ own. own.0) (shape_of types.now (type_at types.now.shapes row))) }
{
    let mut kinds = Vec::new(alloc);
    for row in 0..types.rows() {
        kinds.push(kinds_of(alloc, types, structures, row)?)?;
    }
    Ok(Row::from_vec(kinds))
}

fn kinds_of(
    alloc: Global,
    types: &Types,
    structures: &Vec<Row<(Scalar, Guard)>>,
    row: u32,
) -> Result<Times<Scalar>, AllocError>
    requires { AreStructures types.now structures.now.items }
    ensures { IfOk result (λ kinds. kinds ≡ map (λ own. own.0) (shape_of types.now (type_at types.now.shapes row))) }
{
    let cells = object_cells(alloc, types, structures, row)?;
    let (one, times) = cells.parts();
    Times::new(kinds_in(alloc, one)?, times)
}

fn kinds_in(alloc: Global, cells: &[(Scalar, Guard)]) -> Result<Vec<Scalar>, AllocError>
    ensures { IfOk result (λ kinds. kinds.items ≡ map (λ own. own.0) cells.now) }
{
    cells.iter().map(|own| own.0).collect(alloc)
}
