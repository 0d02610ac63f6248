use cr_rows::Row;
use cr_syntax::{Kind, Node};
use std::alloc::{AllocError, Global};

/// So many nodes without parts, of which these are contents of structures.
pub fn nodes_with(alloc: Global, count: u32, structures: &[u32]) -> Result<Vec<Node>, AllocError> {
    let mut nodes = Vec::new(alloc);
    for at in 0..count {
        nodes.push(Node {
            kind: kind_among(structures, at),
            first: 0,
            last: 0,
            parts: Row::new(alloc),
        })?;
    }
    Ok(nodes)
}

fn kind_among(structures: &[u32], at: u32) -> Kind {
    if structures.contains(&at) {
        Kind::StructContent
    } else {
        Kind::Int
    }
}
