// Names by nodes.
ghost use Rattle.std.specs.Prelude.{◌≡◌, ◌+◌, IfOk, OnOk, length, slice_get};
ghost use Rattle.cr_check_surroundings.specs.Links.{AreLinks};
ghost use Rattle.cr_check_surroundings.specs.Named.{same_if, used_by, used_name, visible_if};

use crate::raised::raised_of;
use cr_rows::Row;
use cr_scopes_bindings::Bindings;
use cr_syntax::{Kind, Node, number_of};
use std::alloc::{AllocError, Global};

/// The declarations of names: columns with one entry a node.
#[derive(Drop)]
pub(crate) struct Links {
    pub(crate) visible: Row<Option<u32>>,
    pub(crate) earlier: Row<Option<u32>>,
    pub(crate) same: Row<Option<u32>>,
}

fn used_by(kind: Kind, first: u32) -> Option<u32>
    ensures { result ≡ used_by kind first }
{
    match kind {
        Kind::Identifier | Kind::Call | Kind::TypedefName => Some(first),
        _ => None,
    }
}

fn used_name(nodes: &[Node], at: u32) -> Option<u32>
    ensures { result ≡ used_name (slice_get nodes.now at) }
{
    match nodes.get(at as usize) {
        Some(node) => used_by(node.kind, node.first),
        None => None,
    }
}

fn visible_if(bindings: &Bindings, name: Option<u32>) -> Option<u32>
    ensures { result ≡ visible_if bindings.now name }
{
    match name {
        Some(token) => bindings.visible_at(token),
        None => None,
    }
}

fn same_if(bindings: &Bindings, name: Option<u32>) -> Option<u32>
    ensures { result ≡ same_if bindings.now name }
{
    match name {
        Some(token) => bindings.earlier_at(token),
        None => None,
    }
}

fn push(
    links: &mut Links,
    bindings: &Bindings,
    nodes: &[Node],
    above: &[Option<u32>],
    at: u32,
) -> Result<(), AllocError>
    requires { AreLinks bindings.now nodes.now above.now at links.old }
    ensures { OnOk result (AreLinks bindings.now nodes.now above.now (at + 1) links.new) }
{
    let used = visible_if(bindings, used_name(nodes, at));
    let own = bindings.name_of(nodes, at);
    let earlier = visible_if(bindings, own);
    let same = same_if(bindings, own);
    links.visible.push(raised_of(nodes, above, used, at))?;
    links.earlier.push(raised_of(nodes, above, earlier, at))?;
    links.same.push(raised_of(nodes, above, same, at))?;
    Ok(())
}

/// The declaration of the name that each node uses, and those before a name that it declares.
pub(crate) fn all_links(
    alloc: Global,
    bindings: &Bindings,
    nodes: &[Node],
    above: &[Option<u32>],
) -> Result<Links, AllocError>
    ensures { IfOk result (λ links. AreLinks bindings.now nodes.now above.now (length nodes.now) links) }
{
    let mut links = Links {
        visible: Row::new(alloc),
        earlier: Row::new(alloc),
        same: Row::new(alloc),
    };
    links.visible.reserve(nodes.len())?;
    links.earlier.reserve(nodes.len())?;
    links.same.reserve(nodes.len())?;
    for at in 0..nodes.len() {
        push(&mut links, bindings, nodes, above, number_of(at)?)?;
    }
    Ok(links)
}
