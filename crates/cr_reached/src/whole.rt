// Which nodes are evaluated whole.
ghost use Rattle.std.specs.Prelude.{◌≡◌, ◌&&◌, ◌++◌, IfOk, IfSome, drop, length, slice_get, take};
ghost use Rattle.cr_eval.specs.Table.{program_of};
ghost use Rattle.cr_reached.specs.Own.{AreAllSet, AreWhole, given, is_set, own_of};

use cr_eval::Table;
use cr_meaning::{Op, Work};
use std::alloc::{AllocError, Global};

/// Whether a node is marked.
pub(crate) fn is_set(column: &[bool], node: usize) -> bool
    ensures { result ≡ is_set column.now node }
{
    match column.get(node) {
        Some(mark) => *mark,
        None => false,
    }
}

fn mark_at(column: &[bool], node: u32) -> Option<bool>
    ensures { result ≡ slice_get column.now node }
{
    match column.get(node as usize) {
        Some(mark) => Some(*mark),
        None => None,
    }
}

fn both(one: bool, other: bool) -> bool
    ensures { result ≡ (one && other) }
{
    one && other
}

/// Whether all of some nodes are marked, where each of them has a mark.
fn are_all_set(column: &[bool], nodes: &[u32]) -> Option<bool>
    ensures { IfSome result (AreAllSet column.now nodes.now) }
{
    let mut all = true;
    for node in nodes {
        let mark = mark_at(column, *node)?;
        all = both(all, mark);
    }
    Some(all)
}

/// The same of a node that may be there.
fn is_given_set(column: &[bool], node: Option<u32>) -> Option<bool>
    ensures { IfSome result (AreAllSet column.now (given node)) }
{
    match node {
        Some(node) => mark_at(column, node),
        None => Some(true),
    }
}

fn first_of(parts: &[u32]) -> &[u32]
    ensures { result.now ≡ take 1 parts.now }
{
    &parts[..parts.len().min(1)]
}

fn rest_of(parts: &[u32]) -> &[u32]
    ensures { result.now ≡ drop 1 parts.now }
{
    &parts[parts.len().min(1)..]
}

/// The same of the first one.
fn first_set(column: &[bool], parts: &[u32]) -> Option<bool>
    ensures { IfSome result (AreAllSet column.now (take 1 parts.now)) }
{
    are_all_set(column, first_of(parts))
}

/// The same of those behind it.
fn rest_set(column: &[bool], parts: &[u32]) -> Option<bool>
    ensures { IfSome result (AreAllSet column.now (drop 1 parts.now)) }
{
    are_all_set(column, rest_of(parts))
}

/// The same of the two clauses of a `for`.
fn clauses_set(column: &[bool], first: Option<u32>, control: Option<u32>) -> Option<bool>
    ensures { IfSome result (AreAllSet column.now (given first ++ given control)) }
{
    let begun = is_given_set(column, first)?;
    let asked = is_given_set(column, control)?;
    Some(both(begun, asked))
}

/// The same of what an operation's own evaluation has.
fn own_set(column: &[bool], op: &Op) -> Option<bool>
    ensures { IfSome result (AreAllSet column.now (own_of op.now)) }
{
    let parts = op.parts.as_slice();
    match &op.work {
        Work::If => first_set(column, parts),
        Work::While => first_set(column, parts),
        Work::Switch(_, _, _, _, _, _) => first_set(column, parts),
        Work::Do => rest_set(column, parts),
        Work::For(_, first, control, _, _) => clauses_set(column, *first, *control),
        Work::Block(_, _) => Some(true),
        _ => are_all_set(column, parts),
    }
}

/// For each operation whether it is marked with all that its own evaluation has. The error is want of memory, or an operand that doesn't
/// come before its operation, as in no program of the subset.
pub(crate) fn whole_of(
    alloc: Global,
    table: &Table,
    began: &[bool],
) -> Result<Vec<bool>, AllocError>
    ensures { IfOk result (λ whole. AreWhole (program_of table.now) began.now whole.items × (length whole.items ≡ length table.now.ops)) }
{
    let mut whole = Vec::new(alloc);
    for op in table.ops.as_slice() {
        let Some(own) = own_set(whole.as_slice(), op) else {
            return Err(AllocError);
        };
        let here = is_set(began, whole.len());
        whole.push(both(here, own))?;
    }
    Ok(whole)
}
