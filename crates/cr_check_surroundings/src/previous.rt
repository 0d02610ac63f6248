// The part before each.
ghost use Rattle.std.specs.Prelude.{◌≡◌, ◌<◌, ℕ, None, IfOk, length, slice_index_or};
ghost use Rattle.cr_rows.specs.Columns.{AreOf};
ghost use Rattle.cr_check_surroundings.specs.Previous.{before_in, before_of};

use cr_scopes_bindings::set_link;
use cr_syntax::Node;
use std::alloc::{AllocError, Global};

fn place(column: &mut Vec<Option<u32>>, parts: &[u32])
    ensures count { length column.new.items ≡ length column.old.items }
    ensures each { (k : ℕ) → k < length column.old.items → slice_index_or column.new.items k None ≡ before_in parts.now None k (slice_index_or column.old.items k None) }
{
    let mut before = None;
    let mut rest = parts;
    while let [part, more @ ..] = rest {
        set_link(column, *part as usize, before);
        before = Some(*part);
        rest = more;
    }
}

/// For each node the part before it in the node above it.
pub(crate) fn previous(alloc: Global, nodes: &[Node]) -> Result<Vec<Option<u32>>, AllocError>
    ensures { IfOk result (λ column. AreOf (before_of nodes.now (length nodes.now)) None (length nodes.now) column.items) }
{
    let mut column = vec![in alloc; None; nodes.len()]?;
    for node in nodes {
        place(&mut column, node.parts.as_slice());
    }
    Ok(column)
}
