ghost use Rattle.std.specs.Prelude.{◌≡◌, ◌&&◌, nat_le, nat_lt, ◌<◌, ◌≤◌, ◌+◌, ◌*◌, ◌++◌, ◌∷◌, [], true, false, length, map, take, OnOk, OnErr, IfOk, IfSome};
ghost use Rattle.cr_sequence.specs.Kept.{repeated};
ghost use Rattle.cr_memory.specs.Memory.{first_cell};
ghost use Rattle.cr_memory.specs.Flat.{span_at, span_of, BeginsWith, HasRoom, MovesDown};

use crate::flat::{copy_items, place_in};
use crate::spans::Spans;
use crate::value::{Cell, Guard, Pointer, Scalar};
use cr_sequence::Sequence;
use std::alloc::{AllocError, Global};

/// An object of more cells takes room when they are set.
const WIDE: usize = 1024;

/// How many cells so many elements of a shape have; so many as there can't be, where there are more.
pub(crate) fn cells_in(shape: &[(Scalar, Guard)], times: u32) -> usize
    ensures exact { length (repeated times shape.now) < 4294967296 → result ≡ length (repeated times shape.now) }
    ensures large { 4294967296 ≤ length (repeated times shape.now) → 4294967296 ≤ result }
{
    (times as usize).saturating_mul(shape.len())
}

/// Whether the cells of so many elements may live beside those that live.
fn may_live(most: u32, live: u32, shape: &[(Scalar, Guard)], times: u32) -> bool
    requires { live ≤ most }
    ensures { result ≡ nat_le (live + length (repeated times shape.now)) most }
{
    cells_in(shape, times) <= (most - live) as usize
}

/// Whether one more object of so many elements has room, and a number.
pub(crate) fn has_room(
    spans: &Spans,
    most: u32,
    live: u32,
    shape: &[(Scalar, Guard)],
    times: u32,
) -> bool
    requires { live ≤ most }
    ensures { result ≡ (nat_le (live + length (repeated times shape.now)) most && nat_lt (length spans.now) 4294967295) }
{
    may_live(most, live, shape, times) && spans.entered() < u32::MAX
}

/// What a cell holds when its object's lifetime begins.
fn first_cell(own: (Scalar, Guard), zero: bool) -> Cell
    ensures { result ≡ first_cell zero own }
{
    match own.0 {
        _ if !zero => Cell::Unset,
        Scalar::Int(_) => Cell::Number(0),
        Scalar::Pointer(_) => Cell::Pointer(Pointer::Null),
    }
}

/// What the cells of an object hold when its lifetime begins.
fn first_cells(
    alloc: Global,
    shape: &[(Scalar, Guard)],
    zero: bool,
) -> Result<Vec<Cell>, AllocError>
    ensures { IfOk result (λ cells. cells.items ≡ map (first_cell zero) shape.now) }
{
    shape
        .iter()
        .map(|own| first_cell(*own, zero))
        .collect(alloc)
}

#[tactic(auto, using(crate::proofs::Repeating::begins_more))]
fn push_cells(
    cells: &mut Sequence<Cell>,
    shape: &[(Scalar, Guard)],
    zero: bool,
) -> Result<(), AllocError>
    ensures all { OnOk result (cells.new ≡ cells.old ++ map (first_cell zero) shape.now) }
    ensures begun { BeginsWith cells.old cells.new }
{
    for own in shape {
        cells.push(first_cell(*own, zero))?;
    }
    Ok(())
}

#[tactic(auto, using(crate::proofs::Repeating::begins_more))]
fn push_shape(
    shapes: &mut Sequence<(Scalar, Guard)>,
    shape: &[(Scalar, Guard)],
) -> Result<(), AllocError>
    ensures all { OnOk result (shapes.new ≡ shapes.old ++ shape.now) }
    ensures begun { BeginsWith shapes.old shapes.new }
{
    for own in shape {
        shapes.push(*own)?;
    }
    Ok(())
}

/// The cells of so many elements at once, where they are unset and stand plain; else nothing changes.
#[inline]
fn append_unset(
    cells: &mut Sequence<Cell>,
    shape: &[(Scalar, Guard)],
    times: u32,
    zero: bool,
) -> bool
    requires few { length (repeated times shape.now) < 4294967296 }
    ensures all { result ≡ true → cells.new ≡ cells.old ++ map (first_cell zero) (repeated times shape.now) }
    ensures same { result ≡ false → cells.new ≡ cells.old }
{
    if zero {
        return false;
    }
    cells.extend_plain_with(cells_in(shape, times), Cell::Unset)
}

/// The same one by one, wherever they stand.
#[tactic(auto, using(crate::proofs::Repeating::begins_more, crate::proofs::Repeating::begins_after, cr_sequence::proofs::Showing::repeated_more))]
#[inline(never)]
fn append_cells_each(
    cells: &mut Sequence<Cell>,
    shape: &[(Scalar, Guard)],
    times: u32,
    zero: bool,
) -> Result<(), AllocError>
    ensures all { OnOk result (cells.new ≡ cells.old ++ map (first_cell zero) (repeated times shape.now)) }
    ensures begun { BeginsWith cells.old cells.new }
{
    for _turn in 0..times {
        push_cells(cells, shape, zero)?;
    }
    Ok(())
}

#[tactic(auto, using(crate::proofs::Repeating::begins_more))]
#[inline]
fn append_cells(
    cells: &mut Sequence<Cell>,
    shape: &[(Scalar, Guard)],
    times: u32,
    zero: bool,
) -> Result<(), AllocError>
    requires few { length (repeated times shape.now) < 4294967296 }
    ensures all { OnOk result (cells.new ≡ cells.old ++ map (first_cell zero) (repeated times shape.now)) }
    ensures begun { BeginsWith cells.old cells.new }
{
    if append_unset(cells, shape, times, zero) {
        return Ok(());
    }
    append_cells_each(cells, shape, times, zero)
}

/// The kind and guard of an element of one cell.
#[inline]
fn alone(shape: &[(Scalar, Guard)]) -> Option<(Scalar, Guard)>
    ensures { IfSome result (λ own. shape.now ≡ own ∷ []) }
{
    match shape {
        [own] => Some(*own),
        _ => None,
    }
}

/// The kinds and guards of elements of one cell, or of one element, at once, where they stand plain; else nothing changes.
#[inline]
fn append_run(shapes: &mut Sequence<(Scalar, Guard)>, shape: &[(Scalar, Guard)], times: u32) -> bool
    ensures all { result ≡ true → shapes.new ≡ shapes.old ++ repeated times shape.now }
    ensures same { result ≡ false → shapes.new ≡ shapes.old }
{
    if let Some(own) = alone(shape) {
        return shapes.extend_plain_with(times as usize, own);
    }
    if times == 1 {
        return shapes.extend_plain(shape);
    }
    false
}

/// The same one by one, of whatever elements.
#[tactic(auto, using(crate::proofs::Repeating::begins_more, crate::proofs::Repeating::begins_after, cr_sequence::proofs::Showing::repeated_more))]
#[inline(never)]
fn append_shape_each(
    shapes: &mut Sequence<(Scalar, Guard)>,
    shape: &[(Scalar, Guard)],
    times: u32,
) -> Result<(), AllocError>
    ensures all { OnOk result (shapes.new ≡ shapes.old ++ repeated times shape.now) }
    ensures begun { BeginsWith shapes.old shapes.new }
{
    for _turn in 0..times {
        push_shape(shapes, shape)?;
    }
    Ok(())
}

#[tactic(auto, using(crate::proofs::Repeating::begins_more))]
#[inline]
fn append_shape(
    shapes: &mut Sequence<(Scalar, Guard)>,
    shape: &[(Scalar, Guard)],
    times: u32,
) -> Result<(), AllocError>
    ensures all { OnOk result (shapes.new ≡ shapes.old ++ repeated times shape.now) }
    ensures begun { BeginsWith shapes.old shapes.new }
{
    if append_run(shapes, shape, times) {
        return Ok(());
    }
    append_shape_each(shapes, shape, times)
}

/// The cells of so many elements, spelled out.
#[tactic(auto, using(crate::proofs::Repeating::begins_same))]
#[inline]
fn append_plain(
    cells: &mut Sequence<Cell>,
    shapes: &mut Sequence<(Scalar, Guard)>,
    shape: &[(Scalar, Guard)],
    times: u32,
    zero: bool,
) -> Result<(), AllocError>
    requires few { length (repeated times shape.now) < 4294967296 }
    ensures cells { OnOk result (cells.new ≡ cells.old ++ map (first_cell zero) (repeated times shape.now)) }
    ensures shapes { OnOk result (shapes.new ≡ shapes.old ++ repeated times shape.now) }
    ensures begun_cells { BeginsWith cells.old cells.new }
    ensures begun_shapes { BeginsWith shapes.old shapes.new }
{
    append_cells(cells, shape, times, zero)?;
    append_shape(shapes, shape, times)
}

/// The same where the cells take room when they are set.
#[tactic(auto, using(crate::proofs::Repeating::begins_same))]
fn stretch_cells(
    alloc: Global,
    cells: &mut Sequence<Cell>,
    shape: &[(Scalar, Guard)],
    times: u32,
    zero: bool,
) -> Result<(), AllocError>
    requires some { 0 < length shape.now }
    requires few { times * length shape.now ≤ 4294967296 }
    ensures all { OnOk result (cells.new ≡ cells.old ++ map (first_cell zero) (repeated times shape.now)) }
    ensures begun { BeginsWith cells.old cells.new }
{
    let first = first_cells(alloc, shape, zero)?;
    cells.push_stretch(first, times as usize)
}

#[tactic(auto, using(crate::proofs::Repeating::begins_same))]
fn stretch_shape(
    alloc: Global,
    shapes: &mut Sequence<(Scalar, Guard)>,
    shape: &[(Scalar, Guard)],
    times: u32,
) -> Result<(), AllocError>
    requires some { 0 < length shape.now }
    requires few { times * length shape.now ≤ 4294967296 }
    ensures all { OnOk result (shapes.new ≡ shapes.old ++ repeated times shape.now) }
    ensures begun { BeginsWith shapes.old shapes.new }
{
    let own = shape.to_vec(alloc)?;
    shapes.push_stretch(own, times as usize)
}

#[tactic(auto, using(crate::proofs::Repeating::begins_same))]
#[inline(never)]
fn append_stretch(
    alloc: Global,
    cells: &mut Sequence<Cell>,
    shapes: &mut Sequence<(Scalar, Guard)>,
    shape: &[(Scalar, Guard)],
    times: u32,
    zero: bool,
) -> Result<(), AllocError>
    requires some { 0 < length shape.now }
    requires few { times * length shape.now ≤ 4294967296 }
    ensures cells { OnOk result (cells.new ≡ cells.old ++ map (first_cell zero) (repeated times shape.now)) }
    ensures shapes { OnOk result (shapes.new ≡ shapes.old ++ repeated times shape.now) }
    ensures begun_cells { BeginsWith cells.old cells.new }
    ensures begun_shapes { BeginsWith shapes.old shapes.new }
{
    stretch_cells(alloc, cells, shape, times, zero)?;
    stretch_shape(alloc, shapes, shape, times)
}

/// The cells of a new object, behind those that are there, or some of them.
#[inline]
fn append(
    alloc: Global,
    cells: &mut Sequence<Cell>,
    shapes: &mut Sequence<(Scalar, Guard)>,
    shape: &[(Scalar, Guard)],
    times: u32,
    zero: bool,
) -> Result<(), AllocError>
    requires few { length (repeated times shape.now) < 4294967296 }
    ensures cells { OnOk result (cells.new ≡ cells.old ++ map (first_cell zero) (repeated times shape.now)) }
    ensures shapes { OnOk result (shapes.new ≡ shapes.old ++ repeated times shape.now) }
    ensures begun_cells { BeginsWith cells.old cells.new }
    ensures begun_shapes { BeginsWith shapes.old shapes.new }
{
    if times > 1 && cells_in(shape, times) > WIDE {
        append_stretch(alloc, cells, shapes, shape, times, zero)
    } else {
        append_plain(cells, shapes, shape, times, zero)
    }
}

/// Enters an object of elements of a shape behind the others, or some of its cells.
fn enter_behind(
    alloc: Global,
    spans: &mut Spans,
    cells: &mut Sequence<Cell>,
    shapes: &mut Sequence<(Scalar, Guard)>,
    shape: &[(Scalar, Guard)],
    times: u32,
    zero: bool,
) -> Result<u32, AllocError>
    requires number { length spans.old < 4294967295 }
    requires few { length (repeated times shape.now) < 4294967296 }
    ensures number { IfOk result (λ number. number ≡ length spans.old) }
    ensures spans { OnOk result (spans.new ≡ spans.old ++ span_of (length cells.old) (length (repeated times shape.now)) ∷ []) }
    ensures cells { OnOk result (cells.new ≡ cells.old ++ map (first_cell zero) (repeated times shape.now)) }
    ensures shapes { OnOk result (shapes.new ≡ shapes.old ++ repeated times shape.now) }
    ensures same_spans { OnErr result (spans.new ≡ spans.old) }
    ensures begun_cells { BeginsWith cells.old cells.new }
    ensures begun_shapes { BeginsWith shapes.old shapes.new }
{
    let first = cells.len();
    append(alloc, cells, shapes, shape, times, zero)?;
    spans.enter(first, cells_in(shape, times) as u32)
}

/// Enters an object of elements of a shape behind the others, or changes nothing.
pub(crate) fn enter(
    alloc: Global,
    spans: &mut Spans,
    cells: &mut Sequence<Cell>,
    shapes: &mut Sequence<(Scalar, Guard)>,
    shape: &[(Scalar, Guard)],
    times: u32,
    zero: bool,
) -> Result<u32, AllocError>
    requires number { length spans.old < 4294967295 }
    requires few { length (repeated times shape.now) < 4294967296 }
    ensures number { IfOk result (λ number. number ≡ length spans.old) }
    ensures spans { OnOk result (spans.new ≡ spans.old ++ span_of (length cells.old) (length (repeated times shape.now)) ∷ []) }
    ensures cells { OnOk result (cells.new ≡ cells.old ++ map (first_cell zero) (repeated times shape.now)) }
    ensures shapes { OnOk result (shapes.new ≡ shapes.old ++ repeated times shape.now) }
    ensures same_spans { OnErr result (spans.new ≡ spans.old) }
    ensures same_cells { OnErr result (cells.new ≡ cells.old) }
    ensures same_shapes { OnErr result (shapes.new ≡ shapes.old) }
{
    let cell_count = cells.len();
    let shape_count = shapes.len();
    match enter_behind(alloc, spans, cells, shapes, shape, times, zero) {
        Ok(number) => Ok(number),
        Err(error) => {
            cells.truncate(cell_count);
            shapes.truncate(shape_count);
            Err(error)
        }
    }
}

/// How many cells there are, which is a number.
pub(crate) fn size_of(cells: &Sequence<Cell>) -> usize
    ensures { length cells.now ≤ 18446744073709551615 }
{
    cells.len()
}

/// Drops the items from a place on.
pub(crate) fn cut<T: Copy>(items: &mut Sequence<T>, end: usize)
    ensures { items.new ≡ take end items.old }
{
    items.truncate(end);
}

/// Moves the cells of a live object down to a place, and answers where they end.
pub(crate) fn move_down(
    spans: &mut Spans,
    cells: &mut Sequence<Cell>,
    shapes: &mut Sequence<(Scalar, Guard)>,
    number: u32,
    to: usize,
) -> usize
    requires live { (span_at spans.old number).alive ≡ true }
    requires down { to ≤ (span_at spans.old number).first }
    requires room { HasRoom spans.old (length cells.old) }
    requires same_length { length shapes.old ≡ length cells.old }
    ensures { MovesDown spans.old cells.old shapes.old number to spans.new cells.new shapes.new result }
{
    let span = spans.get(number);
    let count = span.count as usize;
    let end = place_in(cells.len(), to, count);
    copy_items(cells, span.first, to, count);
    copy_items(shapes, span.first, to, count);
    spans.move_to(number, to);
    end
}
