// The initialiser lists of a unit.
ghost use Rattle.std.specs.Prelude.{◌≡◌, IfOk, slice_get};
ghost use Rattle.cr_order.specs.Orders.{is_list, is_list_kind, only_list, outer_of};

use cr_check_enclosing::above;
use cr_syntax::{Kind, Node};
use cr_typed::Typed;
use std::alloc::{AllocError, Global};

fn is_list(nodes: &[Node], node: u32) -> bool
    ensures { result ≡ is_list (slice_get nodes.now node) }
{
    match nodes.get(node as usize) {
        Some(found) => matches!(found.kind, Kind::InitializerList),
        None => false,
    }
}

/// The node above another one, where it is a list.
fn only_list(nodes: &[Node], above: Option<u32>) -> Option<u32>
    ensures { result ≡ only_list nodes.now above }
{
    match above {
        Some(node) => {
            if is_list(nodes, node) {
                Some(node)
            } else {
                None
            }
        }
        None => None,
    }
}

/// For each node the list of which it is an initialiser, where it is one.
pub fn outer_of(alloc: Global, typed: &Typed) -> Result<Vec<Option<u32>>, AllocError>
    ensures { IfOk result (λ outer. outer.items ≡ outer_of typed.now) }
{
    let nodes = typed.nodes.as_slice();
    let above = above(alloc, nodes)?;
    let mut outer = Vec::new(alloc);
    for node in above.as_slice() {
        outer.push(only_list(nodes, *node))?;
    }
    Ok(outer)
}
