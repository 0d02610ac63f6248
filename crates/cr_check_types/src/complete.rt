ghost use Rattle.std.specs.Prelude.{◌≡◌, ◌<◌, length, slice_get};
ghost use Rattle.cr_check_types.specs.Types.{type_at};
ghost use Rattle.cr_check_types.specs.Relations.{is_complete_at, is_whole, is_content_if};

use crate::table::Table;
use cr_syntax::{CType, Kind, Node};

impl Table {
    /// Whether a type is a complete object type at a node (C11 6.2.5p1). A structure is where its content has ended, so
    /// not inside its own braces.
    pub fn is_complete(&self, nodes: &[Node], at: u32, row: u32) -> bool
        requires { row < length self.now }
        ensures { result ≡ is_complete_at nodes.now at (type_at self.now row) }
    {
        let mut inner = row;
        loop {
            match self.shape(inner).of {
                CType::Pointer(_) => return true,
                CType::Array(_, 0) => return false,
                CType::Array(below, _) => inner = below,
                of => return is_whole(nodes, at, of),
            }
        }
    }
}

fn is_whole(nodes: &[Node], at: u32, of: CType) -> bool
    ensures { result ≡ is_whole nodes.now at of }
{
    match of {
        CType::Int(_) => true,
        CType::Struct(node) => node < at && is_content(nodes, node as usize),
        _ => false,
    }
}

fn is_content(nodes: &[Node], node: usize) -> bool
    ensures { result ≡ is_content_if (slice_get nodes.now node) }
{
    node < nodes.len() && nodes[node].kind == Kind::StructContent
}
