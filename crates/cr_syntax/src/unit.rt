ghost use Rattle.std.specs.Prelude.{◌≡◌, length};
ghost use Rattle.cr_syntax.specs.Kept.{AreWithin, PartsAreBelow, NamedOnce, ItemsAreNodes};

use crate::node::Node;
use cr_rows::Row;
use cr_tokens::Tokens;

/// A translation unit (C11 6.9): its tokens, the nodes of its tree, and the numbers of its external declarations in order.
#[derive(Drop, Debug)]
pub struct Unit {
    pub tokens: Tokens,
    pub nodes: Row<Node>,
    pub items: Row<u32>,
    pub ghost within: { AreWithin (length tokens.list.items) nodes },
    pub ghost parts_below: { PartsAreBelow nodes },
    pub ghost named_once: { NamedOnce nodes items },
    pub ghost items_are_nodes: { ItemsAreNodes nodes items },
}

impl Unit {
    /// The unit of these nodes.
    pub fn new(tokens: Tokens, nodes: Row<Node>, items: Row<u32>) -> Unit
        requires within { AreWithin (length tokens.list.items) nodes }
        requires parts_below { PartsAreBelow nodes }
        requires named_once { NamedOnce nodes items }
        requires items_are_nodes { ItemsAreNodes nodes items }
        ensures tokens { result.tokens ≡ tokens }
        ensures nodes { result.nodes ≡ nodes }
        ensures items { result.items ≡ items }
    {
        Unit {
            tokens,
            nodes,
            items,
        }
    }
}
