ghost use Rattle.std.specs.Prelude.{◌≡◌, ◌<◌, ℕ, IfOk, None, length, slice_index_or};
ghost use Rattle.cr_syntax.specs.Kept.{PartsAreBelow};
ghost use Rattle.cr_meaning_operations.specs.Operations.{entity_of, is_name, name_of, is_automatic, is_static};
ghost use Rattle.cr_typed.specs.declared.typed.Duration.TheVariants.{NoObject};
ghost use Rattle.cr_exec_table.specs.Names.{AreNames};

use cr_exec_shapes::Types;
use cr_rows::entry_at;
use cr_syntax::Kind;
use cr_typed::{Duration, Typed};
use std::alloc::{AllocError, Global};
use std::marker::Model;

/// The nodes of a typed unit, with what their declarators declare.
#[derive(Drop)]
pub(crate) struct Nodes<'a> {
    types: Types<'a>,
    // For each node the name in its first parts.
    names: Vec<u32>,
}

impl<'a> Model for Nodes<'a> {
    ghost use Rattle.cr_typed.specs.declared.typed.Typed as column;
    ghost use Rattle.cr_exec_table.specs.Names.{AreNames};

    ghost Value = { column.Typed };

    ghost view = { λ nodes. nodes.types };

    ghost invariant = { λ nodes. AreNames nodes.types nodes.names.items };
}

impl<'a> Nodes<'a> {
    pub(crate) fn new(alloc: Global, types: Types<'a>) -> Result<Nodes<'a>, AllocError>
        ensures { IfOk result (λ nodes. nodes ≡ types.entry) }
    {
        let names = names(alloc, &types)?;
        Ok(Nodes { types, names })
    }

    pub(crate) fn types(&self) -> &Types<'a>
        ensures { result.now ≡ self.now }
    {
        &self.types
    }

    /// The node that declares an entity first.
    pub(crate) fn entity(&self, node: u32) -> u32
        ensures { result ≡ entity_of self.now node }
    {
        match entity_at(self.types.typed(), node) {
            Some(first) => first,
            None => node,
        }
    }

    /// The name in a declarator (C11 6.7.6).
    pub(crate) fn name(&self, declarator: u32) -> u32
        ensures { result ≡ name_of self.now declarator }
    {
        known_name(&self.names, declarator)
    }

    /// Whether a declarator declares an object of automatic duration.
    pub(crate) fn is_automatic(&self, declarator: u32) -> bool
        ensures { result ≡ is_automatic self.now declarator }
    {
        matches!(
            duration_at(self.types.typed(), self.name(declarator)),
            Duration::Automatic
        )
    }

    /// Whether it declares one of static duration.
    pub(crate) fn is_static(&self, declarator: u32) -> bool
        ensures { result ≡ is_static self.now declarator }
    {
        matches!(
            duration_at(self.types.typed(), self.name(declarator)),
            Duration::Static
        )
    }
}

// The name of each node.
fn names(alloc: Global, types: &Types) -> Result<Vec<u32>, AllocError>
    ensures { IfOk result (λ names. AreNames types.now names.items) }
{
    let mut names = Vec::new(alloc);
    for node in 0..types.count() {
        let name = name_at(types, &names, node);
        names.push(name)?;
    }
    Ok(names)
}

// A name is its own one; else it is that of the first part, which stands before the node.
fn name_at(types: &Types, names: &Vec<u32>, node: u32) -> u32
    requires within { node < length types.now.nodes }
    requires below { PartsAreBelow types.now.nodes }
    requires count { length names.now.items ≡ node }
    requires each { (k : ℕ) → k < node → slice_index_or names.now.items k 0 ≡ name_of types.now k }
    ensures { result ≡ name_of types.now node }
{
    if is_name(types.kind(node)) {
        node
    } else {
        known_name(names, types.part(node, 0))
    }
}

fn is_name(kind: Kind) -> bool
    ensures { result ≡ is_name kind }
{
    matches!(kind, Kind::NameDeclarator)
}

fn known_name(names: &Vec<u32>, at: u32) -> u32
    ensures { result ≡ slice_index_or names.now.items at 0 }
{
    entry_at(names, at as usize, 0)
}

fn entity_at(typed: &Typed, node: u32) -> Option<u32>
    ensures { result ≡ slice_index_or typed.now.refs node None }
{
    entry_at(typed.refs.as_slice(), node as usize, None)
}

fn duration_at(typed: &Typed, node: u32) -> Duration
    ensures { result ≡ slice_index_or typed.now.durations node NoObject }
{
    entry_at(
        typed.durations.as_slice(),
        node as usize,
        Duration::NoObject,
    )
}
