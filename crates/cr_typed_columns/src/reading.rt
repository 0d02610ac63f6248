// Nodes and entries that may not be there.
ghost use Rattle.std.specs.Prelude.{◌≡◌, slice_get};
ghost use Rattle.cr_syntax.specs.Numbered.{parts_at as parts_at_lem};
ghost use Rattle.cr_typed_columns.specs.Reading.{kind_of as kind_of_lem, part_of as part_of_lem, entry_of};

use cr_rows::entry_at;
use cr_syntax::{Kind, Node, kind_at, parts_at};

/// A part of a node.
pub(crate) fn part_at(nodes: &[Node], at: usize, number: usize) -> Option<u32>
    ensures { result ≡ slice_get (parts_at_lem nodes.now at) number }
{
    let parts = parts_at(nodes, at);
    if number < parts.len() {
        Some(parts[number])
    } else {
        None
    }
}

/// The kind of a node, where there is one.
pub(crate) fn kind_of(nodes: &[Node], node: Option<u32>) -> Option<Kind>
    ensures { result ≡ kind_of_lem nodes.now node }
{
    match node {
        Some(node) => kind_at(nodes, node as usize),
        None => None,
    }
}

/// A part of a node, where there is one.
pub(crate) fn part_of(nodes: &[Node], node: Option<u32>, number: usize) -> Option<u32>
    ensures { result ≡ part_of_lem nodes.now node number }
{
    match node {
        Some(node) => part_at(nodes, node as usize, number),
        None => None,
    }
}

/// The entry of a number in a column.
pub(crate) fn entry<T: Copy>(column: &[T], nothing: T, number: Option<u32>) -> T
    ensures { result ≡ entry_of column.now nothing number }
{
    match number {
        Some(number) => entry_at(column, number as usize, nothing),
        None => nothing,
    }
}
