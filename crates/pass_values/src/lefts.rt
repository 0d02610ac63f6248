// The names on the left of `=`, which isn't a place where they are read.
ghost use Rattle.std.specs.Prelude.{◌≡◌, ◌++◌, IfOk, OnOk};
ghost use Rattle.pass_levels.specs.Nodes.{node_at};
ghost use Rattle.pass_values.specs.Values.{left_name, lefts_from, lefts_in};

use cr_syntax::{Kind, Node};
use pass_levels::{kind_at, parts_at, span_at};
use pass_params::part_at;
use std::alloc::{AllocError, Global};

fn put_name(nodes: &[Node], left: usize, lefts: &mut Vec<u32>) -> Result<(), AllocError>
    ensures { OnOk result (lefts.new.items ≡ lefts.old.items ++ left_name (node_at nodes.now left).kind (node_at nodes.now left)) }
{
    let (token, _) = span_at(nodes, left);
    match kind_at(nodes, left) {
        Kind::Identifier => lefts.push(token)?,
        _ => {}
    }
    Ok(())
}

fn put_left(nodes: &[Node], node: usize, lefts: &mut Vec<u32>) -> Result<(), AllocError>
    ensures { OnOk result (lefts.new.items ≡ lefts.old.items ++ lefts_from nodes.now node) }
{
    let parts = parts_at(nodes, node);
    match kind_at(nodes, node) {
        Kind::Assign => put_name(nodes, part_at(parts, 0) as usize, lefts),
        _ => Ok(()),
    }
}

/// The names on the left of `=`, each by its token. The error is want of memory.
pub fn lefts_in(alloc: Global, nodes: &[Node]) -> Result<Vec<u32>, AllocError>
    ensures { IfOk result (λ lefts. lefts.items ≡ lefts_in nodes.now) }
{
    let mut lefts = Vec::new(alloc);
    for node in 0..nodes.len() {
        put_left(nodes, node, &mut lefts)?;
    }
    Ok(lefts)
}
