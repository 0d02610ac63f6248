// What the declarations of a unit's names are, by tokens and by nodes.
ghost use Rattle.std.specs.Prelude.{IfOk};
ghost use Rattle.cr_check_surroundings.specs.Bound.{AreBound};
ghost use Rattle.cr_syntax.specs.Words.{AreSpans};

use crate::links::{Links, all_links};
use crate::tagged::tags;
use cr_check_declarations::Tag;
use cr_holding::holding;
use cr_rows::Row;
use cr_scopes::Names;
use cr_scopes_bindings::Bindings;
use cr_syntax::Unit;
use std::alloc::{AllocError, Global};

/// The declarations of names, by tokens, and those that each node has, with its tag.
#[derive(Drop)]
pub(crate) struct BoundNodes {
    pub(crate) bindings: Bindings,
    pub(crate) links: Links,
    pub(crate) tags: Row<Option<Tag>>,
}

/// The declarations of a unit's names. The error is want of memory.
pub(crate) fn bind_nodes(
    alloc: Global,
    file: &[u8],
    unit: &Unit,
    names: &Names,
    above: &[Option<u32>],
) -> Result<BoundNodes, AllocError>
    requires { AreSpans file.now unit.now.tokens.list.items }
    ensures { IfOk result (λ b. AreBound file.now unit.now names.now above.now b) }
{
    let tokens = unit.tokens.list.as_slice();
    let nodes = unit.nodes.as_slice();
    let bindings = Bindings::new(alloc, file, unit, names)?;
    let links = all_links(alloc, &bindings, nodes, above);
    let (links, bindings) = holding(links, bindings)?;
    let tags = tags(alloc, &bindings, names, nodes, tokens);
    let (tags, (links, bindings)) = holding(tags, (links, bindings))?;
    Ok(BoundNodes {
        bindings,
        links,
        tags: Row::from_vec(tags),
    })
}
