ghost use Rattle.std.specs.Prelude.{◌≡◌, IfOk};
ghost use Rattle.cr_check_surroundings.specs.Surroundings.{AreSurroundings, IsTree};
ghost use Rattle.cr_syntax.specs.Words.{AreSpans};

use crate::bound::bind_nodes;
use crate::previous::previous;
use cr_check_declarations::{Tag, Tree};
use cr_check_enclosing::{Around, above, all_around};
use cr_rows::Row;
use cr_scopes::Names;
use cr_scopes_bindings::Bindings;
use cr_syntax::Unit;
use std::alloc::{AllocError, Global};

/// What is known of a unit's nodes before any of them is judged. Nodes and tokens are named by their numbers; each column has one
/// entry a node.
///
/// A declaration of a name is the whole declarator, or the enumerator, that declares it; for a node behind the initialised declarator
/// whose declarator that is, it is the initialised declarator, where an array has its size (C11 6.7.9p22).
#[derive(Drop)]
pub struct Surroundings {
    /// The declarations of names, by tokens.
    pub bindings: Bindings,
    /// The node above each.
    pub above: Row<Option<u32>>,
    /// The part before each in the node above it.
    pub previous: Row<Option<u32>>,
    /// What each has from above.
    pub around: Row<Around>,
    /// For each identifier, call and typedef name the declaration of its name that is visible where it stands (6.2.1p4).
    pub visible: Row<Option<u32>>,
    /// For each node that declares a name the declaration of that name that is visible directly before (6.2.2p4).
    pub earlier: Row<Option<u32>>,
    /// For each node that declares a name the last declaration of the same before it, in whatever scope (6.2.7p2).
    pub same: Row<Option<u32>>,
    /// The tags of specifiers (6.7.2.3).
    pub tags: Row<Option<Tag>>,
}

impl Surroundings {
    /// What is known of the nodes of a unit with its names. The error is want of memory.
    pub fn new(
        alloc: Global,
        file: &[u8],
        unit: &Unit,
        names: &Names,
    ) -> Result<Surroundings, AllocError>
        requires { AreSpans file.now unit.now.tokens.list.items }
        ensures { IfOk result (λ found. AreSurroundings file.now unit.now names.now found) }
    {
        let nodes = unit.nodes.as_slice();
        let above = above(alloc, nodes)?;
        let around = all_around(alloc, nodes, &above)?;
        let previous = previous(alloc, nodes)?;
        let bound = bind_nodes(alloc, file, unit, names, &above)?;
        Ok(Surroundings {
            bindings: bound.bindings,
            above: Row::from_vec(above),
            previous: Row::from_vec(previous),
            around: Row::from_vec(around),
            visible: bound.links.visible,
            earlier: bound.links.earlier,
            same: bound.links.same,
            tags: bound.tags,
        })
    }

    /// The tree of the unit with what is known of its nodes.
    pub fn tree<'a>(&'a self, file: &'a [u8], unit: &'a Unit) -> Tree<'a>
        ensures { IsTree file.now unit.now self.now result }
    {
        Tree {
            file,
            tokens: unit.tokens.list.as_slice(),
            nodes: unit.nodes.as_slice(),
            names: self.bindings.spellings.as_slice(),
            above: self.above.as_slice(),
            previous: self.previous.as_slice(),
            around: self.around.as_slice(),
            visible: self.visible.as_slice(),
            earlier: self.earlier.as_slice(),
            same: self.same.as_slice(),
            tags: self.tags.as_slice(),
        }
    }
}
