ghost use Rattle.std.specs.Prelude.{◌≡◌, ◌++◌, drop, map, IfOk, OnOk};
ghost use Rattle.cr_meaning_operations.specs.Operations.{name_of, is_declaration, declarators_of, objects_in};

use crate::nodes::Nodes;
use cr_rows::Row;
use cr_syntax::Kind;
use std::alloc::{AllocError, Global};

/// The declarators of a declaration that have work: those of automatic objects.
pub(crate) fn declarators(
    alloc: Global,
    nodes: &Nodes,
    declaration: u32,
) -> Result<Row<u32>, AllocError>
    ensures { IfOk result (λ row. row ≡ declarators_of nodes.now declaration) }
{
    let mut declarators = Vec::new(alloc);
    for part in rest(nodes.types().parts(declaration)) {
        if nodes.is_automatic(*part) {
            declarators.push(*part)?;
        }
    }
    Ok(Row::from_vec(declarators))
}

/// The automatic objects that are declared among some items, by their names.
pub(crate) fn objects(alloc: Global, nodes: &Nodes, items: &[u32]) -> Result<Row<u32>, AllocError>
    ensures { IfOk result (λ row. row ≡ objects_in nodes.now items.now) }
{
    let mut objects = Vec::new(alloc);
    for item in items {
        if is_declaration(nodes.types().kind(*item)) {
            add(nodes, *item, &mut objects)?;
        }
    }
    Ok(Row::from_vec(objects))
}

fn add(nodes: &Nodes, declaration: u32, objects: &mut Vec<u32>) -> Result<(), AllocError>
    ensures { OnOk result (objects.new.items
        ≡ objects.old.items ++ map (name_of nodes.now) (declarators_of nodes.now declaration)) }
{
    for part in rest(nodes.types().parts(declaration)) {
        if nodes.is_automatic(*part) {
            objects.push(nodes.name(*part))?;
        }
    }
    Ok(())
}

pub(crate) fn is_declaration(kind: Kind) -> bool
    ensures { result ≡ is_declaration kind }
{
    matches!(kind, Kind::Declaration)
}

/// The parts behind the first.
pub(crate) fn rest(parts: &[u32]) -> &[u32]
    ensures { result.now ≡ drop 1 parts.now }
{
    &parts[1.min(parts.len())..]
}
