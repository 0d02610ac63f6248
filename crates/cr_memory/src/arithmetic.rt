ghost use Rattle.std.specs.Prelude.{◌≡◌, ◌<◌, ◌==◌, false, length};
ghost use Rattle.cr_memory.specs.Pointers.{moved_by, difference_of, are_told, order_of, shift_by, with_both};
ghost use Rattle.cr_memory.specs.Flat.{span_at, ended_in, PointerIn, HasSubscript, HasRoom, flat_equality};

use crate::flat::{has_ended, is_in_literal};
use crate::spans::Spans;
use crate::value::{
    Cell, DIFFERENT_ARRAYS, DIFFERENT_OBJECTS, END_COMPARED, ENDED, Guard, Pointer, SUM_OUTSIDE,
    Scalar, Trap,
};
use cr_sequence::Sequence;

/// The sum of a pointer and a number of elements.
fn moved(at: Pointer, by: i128) -> Result<Pointer, Trap>
    ensures { result ≡ moved_by at by }
{
    let Pointer::At {
        object,
        cell,
        low,
        high,
        element,
    } = at
    else {
        return Err(Trap::Undefined(SUM_OUTSIDE));
    };
    let moved = by
        .checked_mul(i128::from(element.cells))
        .and_then(|cells| cells.checked_add(i128::from(cell)));
    match moved {
        Some(moved) if i128::from(low) <= moved && moved <= i128::from(high) => {
            Ok(Pointer::At {
                object,
                cell: moved as u32,
                low,
                high,
                element,
            })
        }
        _ => Err(Trap::Undefined(SUM_OUTSIDE)),
    }
}

/// The difference of the subscripts in one array.
fn difference(left: Pointer, right: Pointer) -> Result<i128, Trap>
    requires left { HasSubscript left }
    requires right { HasSubscript right }
    ensures { result ≡ difference_of left right }
{
    match (left, right) {
        (
            Pointer::At {
                object,
                cell,
                low,
                high,
                element,
            },
            Pointer::At {
                object: other,
                cell: cell_r,
                low: low_r,
                high: high_r,
                element: element_r,
            },
        ) if object == other && low == low_r && high == high_r => {
            Ok(
                i128::from((cell - low) / element.cells)
                    - i128::from((cell_r - low_r) / element_r.cells),
            )
        }
        _ => Err(Trap::Undefined(DIFFERENT_ARRAYS)),
    }
}

/// Whether two places of one object are into one array, or neither is at the end of its array.
fn are_told(cell: u32, low: u32, high: u32, cell_r: u32, low_r: u32, high_r: u32) -> bool
    ensures { result ≡ are_told cell low high cell_r low_r high_r }
{
    (low == low_r && high == high_r) || (cell < high && cell_r < high_r)
}

/// Whether the one place in an object comes before the other.
fn order(left: Pointer, right: Pointer) -> Result<bool, Trap>
    ensures { result ≡ order_of left right }
{
    match (left, right) {
        (
            Pointer::At {
                object,
                cell,
                low,
                high,
                ..
            },
            Pointer::At {
                object: other,
                cell: cell_r,
                low: low_r,
                high: high_r,
                ..
            },
        ) if object == other && are_told(cell, low, high, cell_r, low_r, high_r) => {
            Ok(cell < cell_r)
        }
        _ => Err(Trap::Undefined(DIFFERENT_OBJECTS)),
    }
}

/// Whether both are null, or the same place of one object.
fn equality(
    spans: &Spans,
    cells: &Sequence<Cell>,
    shape: &Sequence<(Scalar, Guard)>,
    left: Pointer,
    right: Pointer,
) -> Result<bool, Trap>
    requires left { PointerIn spans.now left }
    requires right { PointerIn spans.now right }
    requires left_lives { ended_in spans.now left ≡ false }
    requires right_lives { ended_in spans.now right ≡ false }
    requires room { HasRoom spans.now (length cells.now) }
    requires same_length { length shape.now ≡ length cells.now }
    ensures { result ≡ flat_equality spans.now shape.now left right }
{
    match (left, right) {
        (Pointer::Null, Pointer::Null) => Ok(true),
        (
            Pointer::At {
                object,
                cell,
                low,
                high,
                ..
            },
            Pointer::At {
                object: other,
                cell: cell_r,
                low: low_r,
                high: high_r,
                ..
            },
        ) => {
            if object == other {
                if cell != cell_r {
                    Ok(false)
                } else if are_told(cell, low, high, cell_r, low_r, high_r) {
                    Ok(true)
                } else {
                    Err(Trap::Left(END_COMPARED))
                }
            } else if is_last_end(spans, object, cell) || is_last_end(spans, other, cell_r) {
                Err(Trap::Left(END_COMPARED))
            } else if is_in_literal(spans, cells, shape, left)
                && is_in_literal(spans, cells, shape, right)
            {
                Err(Trap::Left(END_COMPARED))
            } else {
                Ok(false)
            }
        }
        _ => Ok(false),
    }
}

fn is_last_end(spans: &Spans, object: u32, cell: u32) -> bool
    ensures { result ≡ ((span_at spans.now object).count == cell) }
{
    spans.get(object).count == cell
}

/// A pointer moved by a number of elements.
pub(crate) fn shift(spans: &Spans, at: Pointer, by: i128) -> Result<Pointer, Trap>
    ensures { result ≡ shift_by (ended_in spans.now) at by }
{
    if has_ended(spans, at) {
        Err(Trap::Undefined(ENDED))
    } else {
        moved(at, by)
    }
}

/// The distance of two pointers in elements.
pub(crate) fn differ(spans: &Spans, left: Pointer, right: Pointer) -> Result<i128, Trap>
    requires left { PointerIn spans.now left }
    requires right { PointerIn spans.now right }
    ensures { result ≡ with_both (ended_in spans.now) left right (difference_of left right) }
{
    if has_ended(spans, left) || has_ended(spans, right) {
        Err(Trap::Undefined(ENDED))
    } else {
        difference(left, right)
    }
}

/// The order of two pointers.
pub(crate) fn less(spans: &Spans, left: Pointer, right: Pointer) -> Result<bool, Trap>
    ensures { result ≡ with_both (ended_in spans.now) left right (order_of left right) }
{
    if has_ended(spans, left) || has_ended(spans, right) {
        Err(Trap::Undefined(ENDED))
    } else {
        order(left, right)
    }
}

/// The equality of two pointers.
pub(crate) fn same(
    spans: &Spans,
    cells: &Sequence<Cell>,
    shape: &Sequence<(Scalar, Guard)>,
    left: Pointer,
    right: Pointer,
) -> Result<bool, Trap>
    requires left { PointerIn spans.now left }
    requires right { PointerIn spans.now right }
    requires room { HasRoom spans.now (length cells.now) }
    requires same_length { length shape.now ≡ length cells.now }
    ensures { result ≡ with_both (ended_in spans.now) left right (flat_equality spans.now shape.now left right) }
{
    if has_ended(spans, left) || has_ended(spans, right) {
        Err(Trap::Undefined(ENDED))
    } else {
        equality(spans, cells, shape, left, right)
    }
}
