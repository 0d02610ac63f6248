ghost use Rattle.std.specs.Prelude.{◌≡◌, ◌<◌, ◌≤◌, IfOk, OnOk, length};
ghost use Rattle.cr_check_types.specs.Types.{type_at, IsRow, Grows};
ghost use Rattle.cr_check_initialisers.specs.Known.{known_of};
ghost use Rattle.cr_check_initialisers.specs.Places.{sized};
ghost use Rattle.cr_check_initialisers.specs.Plans.{IsPlan, entries_of, entry_of, asked, elements_before, count_in, is_open, cells_of_element, length_asked, puts_of};

use crate::kind::opens;
use crate::part::{Frame, Part, inside_object};
use crate::source::{Source, cells_at, initialisers, shape_at, shape_of};
use crate::walk::{braced, initialise};
use cr_check_types::{Shape, Table};
use cr_rows::Row;
use cr_syntax::CType;
use cr_typed::Put;
use std::alloc::{AllocError, Global};

/// An entry of a plan.
#[derive(Clone, Copy)]
pub enum Line {
    /// An expression, and the part that it initialises.
    Put(Put),
    /// A list in braces, by its node, with more initialisers than places.
    Excess(u32),
}

/// What the initialiser `node` of an object of a row's type initialises, in order of its tokens. It stands in the initialised
/// declarator `above`.
pub fn plan(
    alloc: Global,
    source: &Source,
    row: u32,
    above: u32,
    node: u32,
) -> Result<Vec<Line>, AllocError>
    ensures { IfOk result (λ lines. IsPlan (known_of source.now) (type_at source.now.table.now row) above node (entries_of source.now.table.now lines.items)) }
{
    let mut lines = Vec::new(alloc);
    if opens(source, above, node) {
        let rest = inside_object(source, row, initialisers(source, node));
        braced(alloc, source, node, Frame { cell: 0, rest }, &mut lines)?;
        return Ok(lines);
    }
    initialise(source, Part { cell: 0, row }, node, above, &mut lines)?;
    Ok(lines)
}

/// How many elements the plan of an array of unknown size asks for (C11 6.7.9p22); the array's type is in the row.
#[tactic(auto, unfolding(crate::specs::Plans::entries_of, crate::specs::Plans::most_asked))]
pub fn length_asked(source: &Source, row: u32, lines: &[Line]) -> Result<u64, AllocError>
    ensures { IfOk result (λ n. n ≡ length_asked (known_of source.now) (type_at source.now.table.now row) (entries_of source.now.table.now lines.now)) }
{
    let each = cells_of_element(source, row)?;
    let mut most = 0;
    for line in lines {
        most = most.max(asked(source, each, *line));
    }
    Ok(most)
}

/// A row of a type with so many elements, where it is an array of unknown size.
pub fn complete(table: &mut Table, row: u32, count: u64) -> Result<u32, AllocError>
    requires { row < length table.old }
    ensures made { IfOk result (λ r. IsRow table.new r (sized (type_at table.old row) count)) }
    ensures grows { OnOk result (Grows table.old table.new) }
{
    match table.shape(row).of {
        CType::Array(of, 0) => table.add(Shape::plain(CType::Array(of, count))),
        _ => Ok(row),
    }
}

/// The expressions of a plan with the parts that they initialise.
pub fn puts(alloc: Global, lines: &[Line]) -> Result<Row<Put>, AllocError>
    ensures { IfOk result (λ puts. puts ≡ puts_of lines.now) }
{
    let mut puts = Row::new(alloc);
    for line in lines {
        if let Line::Put(put) = line {
            puts.push(*put)?;
        }
    }
    Ok(puts)
}

fn cells_of_element(source: &Source, row: u32) -> Result<u64, AllocError>
    ensures { IfOk result (λ n. n ≡ cells_of_element (known_of source.now) (type_at source.now.table.now row)) }
{
    match shape_at(source, row).of {
        CType::Array(of, _) => cells_at(source, of),
        _ => Ok(0),
    }
}

#[tactic(auto, unfolding(crate::specs::Plans::asked))]
fn asked(source: &Source, each: u64, line: Line) -> u64
    ensures { result ≡ asked (known_of source.now) each (entry_of source.now.table.now line) }
{
    match line {
        Line::Put(put) => {
            if is_open(source, put.row) {
                count_in(source, put.node)
            } else {
                elements_before(put.cell, each) + 1
            }
        }
        Line::Excess(_) => 0,
    }
}

fn elements_before(cell: u32, each: u64) -> u64
    ensures is { result ≡ elements_before cell each }
    ensures within { result ≤ cell }
{
    if each == 0 { 0 } else { u64::from(cell) / each }
}

fn is_open(source: &Source, row: u32) -> bool
    ensures { result ≡ is_open (type_at source.now.table.now row) }
{
    match shape_at(source, row).of {
        CType::Array(_, count) => count == 0,
        _ => false,
    }
}

/// The elements of the array that an expression is.
pub(crate) fn count_in(source: &Source, node: u32) -> u64
    ensures { result ≡ count_in ((known_of source.now).seen node).type }
{
    match shape_of(source, node).of {
        CType::Array(_, count) => count,
        _ => 0,
    }
}
