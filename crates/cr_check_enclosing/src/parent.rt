ghost use Rattle.std.specs.Prelude.{◌≡◌, ◌<◌, ◌==◌, ℕ, IfOk, OnOk, Option, Some, None, length, slice_get, slice_index_or, slice_set, if◌then◌else◌};
ghost use Rattle.std.specs.List.{list_any};
ghost use Rattle.cr_check_enclosing.specs.Above.{AreAbove, above_of};

use cr_syntax::Node;
use std::alloc::{AllocError, Global};

/// For each node the number of the node that names it as a part; None where none does. Of the nodes of a unit at most one
/// does.
pub fn above(alloc: Global, nodes: &[Node]) -> Result<Vec<Option<u32>>, AllocError>
    ensures { IfOk result (λ a. AreAbove nodes.now a.items) }
{
    let mut above = vec![in alloc; None; nodes.len()]?;
    for (at, node) in nodes.iter().enumerate() {
        let number = u32::try_from(at).map_err(|_| AllocError)?;
        place(&mut above, node.parts.as_slice(), number);
    }
    Ok(above)
}

// Puts a node above its parts.
fn place(above: &mut Vec<Option<u32>>, parts: &[u32], number: u32)
    ensures count { length above.new.items ≡ length above.old.items }
    ensures each { (k : ℕ) → k < length above.old.items → slice_index_or above.new.items k None ≡ (if list_any (λ p. p == k) parts.now then Some number else slice_index_or above.old.items k None) }
{
    for part in parts {
        put(above, *part as usize, number);
    }
}

fn put(above: &mut Vec<Option<u32>>, at: usize, number: u32)
    ensures { above.new.items ≡ slice_set above.old.items at (Some number) }
{
    if at < above.len() {
        above[at] = Some(number);
    }
}
