ghost use Rattle.std.specs.Prelude.{◌≡◌, length};
ghost use Rattle.cr_typed.specs.Typed.{IsTyped};
ghost use Rattle.cr_meaning_operations.specs.Operations.{kind_at, parts_at, part_at, first_at, last_at};

use crate::types::Types;
use cr_syntax::{Kind, Node};

impl<'a> Types<'a> {
    fn nodes(&self) -> &'a [Node]
        ensures { result.now ≡ self.now.nodes }
    {
        self.typed().nodes.as_slice()
    }

    /// How many nodes the unit has.
    pub fn count(&self) -> u32
        ensures is { result ≡ length self.now.nodes }
        ensures typed { IsTyped self.now }
    {
        self.typed().nodes.len() as u32
    }

    /// What a node is.
    pub fn kind(&self, node: u32) -> Kind
        ensures { result ≡ kind_at self.now node }
    {
        match self.nodes().get(node as usize) {
            Some(node) => node.kind,
            None => Kind::Break,
        }
    }

    /// The parts of a node, in order.
    pub fn parts(&self, node: u32) -> &'a [u32]
        ensures { result.now ≡ parts_at self.now node }
    {
        match self.nodes().get(node as usize) {
            Some(node) => node.parts.as_slice(),
            None => &[],
        }
    }

    /// A part of a node, by its number; 0 where it has fewer.
    pub fn part(&self, node: u32, number: usize) -> u32
        ensures { result ≡ part_at self.now node number }
    {
        let parts = self.parts(node);
        if number < parts.len() {
            parts[number]
        } else {
            0
        }
    }

    /// The number of a node's first token.
    pub fn first(&self, node: u32) -> u32
        ensures { result ≡ first_at self.now node }
    {
        match self.nodes().get(node as usize) {
            Some(node) => node.first,
            None => 0,
        }
    }

    /// The number of its last token.
    pub fn last(&self, node: u32) -> u32
        ensures { result ≡ last_at self.now node }
    {
        match self.nodes().get(node as usize) {
            Some(node) => node.last,
            None => 0,
        }
    }
}
