ghost use Rattle.std.specs.Prelude.{◌≡◌, [], ◌∷◌, ◌++◌, ◌+◌, IfOk, OnOk};
ghost use Rattle.cr_check_types.specs.Types.{type_at};
ghost use Rattle.cr_check_initialisers.specs.Known.{known_of};
ghost use Rattle.cr_check_initialisers.specs.Places.{types_in, types_within, types_of_object, known_size, sized};
ghost use Rattle.cr_check_initialisers.specs.Steps.{place_of, types_left, places_of, parts_of, behind, left, IsFront, IsNext};

use crate::kind::encloses;
use crate::source::{Source, cells_at, members_at, shape_at};
use cr_syntax::CType;
use std::alloc::AllocError;

/// A part of an object.
#[derive(Clone, Copy)]
pub(crate) struct Part {
    /// The cell at which it begins.
    pub cell: u64,
    pub row: u32,
}

/// What is left of one aggregate: parts one behind another.
#[derive(Clone, Copy)]
pub(crate) struct Frame {
    pub cell: u64,
    pub rest: Rest,
}

#[derive(Clone, Copy)]
pub(crate) enum Rest {
    /// The row of the elements, and how many.
    Elements(u32, u64),
    /// The structure's node, and the number of the first member that is left.
    Members(u32, usize),
}

/// The first part, and those behind it.
#[derive(Clone, Copy)]
pub(crate) struct Front {
    pub row: u32,
    pub rest: Rest,
}

/// The parts that an aggregate has.
#[tactic(auto, unfolding(crate::specs::Known::known_of, crate::specs::Places::types_in, crate::specs::Steps::types_left))]
pub(crate) fn inner(source: &Source, row: u32) -> Rest
    ensures { types_left source.now result ≡ types_in (known_of source.now) (type_at source.now.table.now row) }
{
    match shape_at(source, row).of {
        CType::Array(of, count) => Rest::Elements(of, count),
        CType::Struct(node) => Rest::Members(node, 0),
        _ => Rest::Elements(row, 0),
    }
}

/// What a list in braces has places for.
#[tactic(auto, unfolding(crate::specs::Places::types_within))]
pub(crate) fn inside(source: &Source, row: u32, list: &[u32]) -> Rest
    ensures { types_left source.now result ≡ types_within (known_of source.now) (type_at source.now.table.now row) list.now }
{
    if encloses(source, row, list) {
        lone(source, row)
    } else {
        inner(source, row)
    }
}

#[tactic(auto, unfolding(crate::specs::Steps::types_left))]
fn lone(source: &Source, row: u32) -> Rest
    ensures { types_left source.now result ≡ type_at source.now.table.now row ∷ [] }
{
    Rest::Elements(row, 1)
}

/// What the list of a whole object has places for.
#[tactic(auto, unfolding(crate::specs::Places::types_of_object))]
pub(crate) fn inside_object(source: &Source, row: u32, list: &[u32]) -> Rest
    ensures { types_left source.now result ≡ types_of_object (known_of source.now) (type_at source.now.table.now row) list.now }
{
    if encloses(source, row, list) {
        lone(source, row)
    } else {
        sized(source, row, list.len())
    }
}

// The parts of an aggregate, of an array of unknown size so many.
#[tactic(auto, unfolding(crate::specs::Known::known_of, crate::specs::Places::types_in, crate::specs::Steps::types_left))]
fn sized(source: &Source, row: u32, most: usize) -> Rest
    ensures { types_left source.now result ≡ types_in (known_of source.now) (sized (type_at source.now.table.now row) most) }
{
    match shape_at(source, row).of {
        CType::Array(of, count) => Rest::Elements(of, known_size(count, most as u64)),
        _ => inner(source, row),
    }
}

fn known_size(count: u64, most: u64) -> u64
    ensures { result ≡ known_size count most }
{
    if count == 0 { most } else { count }
}

#[tactic(auto, using(crate::proofs::Lists::one_element, crate::proofs::Lists::one_member), unfolding(crate::specs::Steps::types_left))]
fn first_of(source: &Source, rest: Rest) -> Option<Front>
    ensures { IsFront source.now (types_left source.now rest) result }
{
    match rest {
        Rest::Elements(row, count) => {
            if count == 0 {
                return None;
            }
            let rest = Rest::Elements(row, count - 1);
            Some(Front { row, rest })
        }
        Rest::Members(node, next) => {
            let members = members_at(source, node);
            if next >= members.len() {
                return None;
            }
            let rest = Rest::Members(node, next + 1);
            Some(Front {
                row: members[next].row,
                rest,
            })
        }
    }
}

/// Takes the first of the places that are left; None where none is left.
pub(crate) fn next(source: &Source, stack: &mut Vec<Frame>) -> Result<Option<Part>, AllocError>
    ensures { IfOk result (λ part. IsNext source.now (left source.now stack.old.items) part (left source.now stack.new.items)) }
{
    while let Some(frame) = stack.pop() {
        if let Some(front) = first_of(source, frame.rest) {
            push_rest(source, frame.cell, front, stack)?;
            return Ok(Some(Part {
                cell: frame.cell,
                row: front.row,
            }));
        }
    }
    Ok(None)
}

// Puts back what is left behind a frame's first part.
fn push_rest(
    source: &Source,
    cell: u64,
    front: Front,
    stack: &mut Vec<Frame>,
) -> Result<(), AllocError>
    ensures { OnOk result (left source.now stack.new.items ≡ behind source.now cell front ++ left source.now stack.old.items) }
{
    let cell = sum(cell, cells_at(source, front.row)?)?;
    let rest = front.rest;
    push_frame(source, Frame { cell, rest }, stack)
}

/// Puts places before those that are left.
#[tactic(auto, using(crate::proofs::Lists::one_frame))]
pub(crate) fn push_frame(
    source: &Source,
    frame: Frame,
    stack: &mut Vec<Frame>,
) -> Result<(), AllocError>
    ensures { OnOk result (left source.now stack.new.items ≡ places_of source.now frame ++ left source.now stack.old.items) }
{
    stack.push(frame)?;
    Ok(())
}

/// Puts the parts of a place in its stead.
#[tactic(auto, unfolding(crate::specs::Steps::places_of))]
pub(crate) fn open(source: &Source, part: Part, stack: &mut Vec<Frame>) -> Result<(), AllocError>
    ensures { OnOk result (left source.now stack.new.items ≡ parts_of source.now part ++ left source.now stack.old.items) }
{
    let rest = inner(source, part.row);
    let cell = part.cell;
    push_frame(source, Frame { cell, rest }, stack)
}

fn sum(left: u64, right: u64) -> Result<u64, AllocError>
    ensures { IfOk result (λ n. n ≡ left + right) }
{
    match left.checked_add(right) {
        Some(sum) => Ok(sum),
        None => Err(AllocError),
    }
}
