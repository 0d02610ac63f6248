ghost use Rattle.std.specs.Prelude.{◌≡◌, None, IfOk, length};
ghost use Rattle.cr_scopes_bindings.specs.Bindings.{declared_name, earlier_node, entry_if, first_node, is_declarer, tag_for, tag_of, visible_node, AreBindings};
ghost use Rattle.cr_scopes_bindings.specs.Entities.{content_entity, previous_of, AreDeclaring};
ghost use Rattle.cr_rows.specs.Columns.{AreOf};
ghost use Rattle.cr_scopes_bindings.specs.Last.{AreLast};
ghost use Rattle.cr_scopes_bindings.specs.Nodes.{name_at as name_at_node, tag_at as tag_at_node};
ghost use Rattle.cr_scopes_bindings.specs.Spellings.{AreSpellings};
ghost use Rattle.cr_scopes_bindings.specs.Visible.{AreVisible};
ghost use Rattle.cr_scopes.specs.States.{name_in};
ghost use Rattle.cr_scopes.specs.Units.{unit_events};
ghost use Rattle.cr_syntax.specs.Words.{AreSpans};

use crate::entities::{declaring, entity_at, first_of, previous};
use crate::last::entry;
use crate::nodes::{contents, declarers, name_at, specifiers, tag_at};
use crate::visible::visible;
use cr_rows::{Row, entry_at};
use cr_scopes::{Names, names_of};
use cr_syntax::{Node, Unit};
use cr_tokens::Token;
use std::alloc::{AllocError, Global};

/// What the declarations of a unit's names are. Nodes, tokens and entities are named by their numbers.
#[derive(Drop)]
pub struct Bindings {
    /// For each token the number of its spelling.
    pub spellings: Row<u32>,
    /// For each token the whole declarator, or the enumerator, that declares it as an ordinary identifier.
    pub declarers: Row<Option<u32>>,
    /// For each token of an ordinary identifier the one that declares its name where it stands (C11 6.2.1p4).
    pub visible: Row<Option<u32>>,
    /// Whether a token declares something.
    pub declaring: Row<bool>,
    /// For each token the one before it that declares the same.
    pub previous: Row<Option<u32>>,
    /// For each token the specifier that has it as its tag.
    pub specifiers: Row<Option<u32>>,
    /// For each entity the specifier with its content.
    pub contents: Row<Option<u32>>,
}

/// What is known of the tag in a specifier of a structure or an enumeration (6.7.2.3).
#[derive(Clone, Copy)]
pub struct TagBinding {
    /// The specifier that declares it first.
    pub first: Option<u32>,
    /// The one with its content.
    pub content: Option<u32>,
    /// Whether this specifier declares it.
    pub declares: bool,
}

fn entry_of(column: &Row<Option<u32>>, number: Option<u32>) -> Option<u32>
    ensures { result ≡ entry_if column.now number }
{
    entry_at(column.as_slice(), number? as usize, None)
}

// The number of each token's spelling, and what is visible there.
fn seen(alloc: Global, file: &[u8], unit: &Unit) -> Result<(Vec<u32>, Vec<Option<u32>>), AllocError>
    requires { AreSpans file.now unit.now.tokens.list.items }
    ensures spellings { IfOk result (λ both. AreSpellings file.now unit.now.tokens.list.items both.0.items) }
    ensures visible { IfOk result (λ both. AreVisible (name_in both.0.items) (unit_events unit.now) (length unit.now.tokens.list.items) both.1.items) }
{
    let spellings = names_of(alloc, file, unit.tokens.list.as_slice())?;
    let visible = visible(alloc, unit, spellings.as_slice())?;
    Ok((spellings, visible))
}

// Which tokens declare, and the one before each that declares the same.
fn repeated(alloc: Global, names: &Names) -> Result<(Vec<bool>, Vec<Option<u32>>), AllocError>
    ensures declaring { IfOk result (λ both. AreDeclaring names.now (length names.now.of_token) both.0.items) }
    ensures previous { IfOk result (λ both. AreOf (previous_of names.now) None (length names.now.of_token) both.1.items) }
{
    let declaring = declaring(alloc, names)?;
    let previous = previous(alloc, names, &declaring)?;
    Ok((declaring, previous))
}

// The declarer and the specifier at each token, and the specifier with each entity's content.
fn nodes_of(
    alloc: Global,
    names: &Names,
    nodes: &[Node],
    tokens: &[Token],
) -> Result<(Vec<Option<u32>>, Vec<Option<u32>>, Vec<Option<u32>>), AllocError>
    ensures declarers { IfOk result (λ all. AreLast (name_at_node nodes.now) (length nodes.now) (length tokens.now) all.0.items) }
    ensures specifiers { IfOk result (λ all. AreLast (tag_at_node nodes.now tokens.now) (length nodes.now) (length tokens.now) all.1.items) }
    ensures contents { IfOk result (λ all. AreLast (content_entity names.now nodes.now tokens.now) (length nodes.now) (length names.now.entities) all.2.items) }
{
    let declarers = declarers(alloc, nodes, tokens.len())?;
    let specifiers = specifiers(alloc, nodes, tokens)?;
    let contents = contents(alloc, names, nodes, tokens)?;
    Ok((declarers, specifiers, contents))
}

impl Bindings {
    /// The declarations of the names of a unit. The error is want of memory.
    pub fn new(
        alloc: Global,
        file: &[u8],
        unit: &Unit,
        names: &Names,
    ) -> Result<Bindings, AllocError>
        requires { AreSpans file.now unit.now.tokens.list.items }
        ensures { IfOk result (λ found. AreBindings file.now unit.now names.now found) }
    {
        let tokens = unit.tokens.list.as_slice();
        let (spellings, visible) = seen(alloc, file, unit)?;
        let (declaring, previous) = repeated(alloc, names)?;
        let nodes = unit.nodes.as_slice();
        let (declarers, specifiers, contents) = nodes_of(alloc, names, nodes, tokens)?;
        Ok(Bindings {
            spellings: Row::from_vec(spellings),
            declarers: Row::from_vec(declarers),
            visible: Row::from_vec(visible),
            declaring: Row::from_vec(declaring),
            previous: Row::from_vec(previous),
            specifiers: Row::from_vec(specifiers),
            contents: Row::from_vec(contents),
        })
    }

    /// The node whose declaration is visible directly before a token: where a name is used, that of what it stands for; where it is
    /// declared, that of an earlier declaration, if there is one (6.2.2p4).
    pub fn visible_at(&self, token: u32) -> Option<u32>
        ensures { result ≡ visible_node self.now token }
    {
        entry_of(
            &self.declarers,
            entry_at(self.visible.as_slice(), token as usize, None),
        )
    }

    /// The last node before a token that declares the same (6.2.7p2).
    pub fn earlier_at(&self, token: u32) -> Option<u32>
        ensures { result ≡ earlier_node self.now token }
    {
        entry_of(
            &self.declarers,
            entry_at(self.previous.as_slice(), token as usize, None),
        )
    }

    /// The token of the ordinary identifier that a node declares: of a declarator and those inside it the whole one, or an enumerator.
    pub fn name_of(&self, nodes: &[Node], at: u32) -> Option<u32>
        ensures { result ≡ declared_name self.now nodes.now at }
    {
        let token = name_at(nodes, at)?;
        if self.is_declarer(token, at) {
            Some(token)
        } else {
            None
        }
    }

    fn is_declarer(&self, token: u32, node: u32) -> bool
        ensures { result ≡ is_declarer self.now token node }
    {
        match entry_at(self.declarers.as_slice(), token as usize, None) {
            Some(declarer) => declarer == node,
            None => false,
        }
    }

    /// The node that declares first what a token stands for.
    pub fn first_at(&self, names: &Names, token: u32) -> Option<u32>
        ensures { result ≡ first_node self.now names.now token }
    {
        let entity = entity_at(names, token as usize);
        entry(self.declarers.as_slice(), first_of(names, entity))
    }

    fn tag_for(&self, names: &Names, token: usize) -> TagBinding
        ensures { result ≡ tag_for self.now names.now token }
    {
        let entity = entity_at(names, token);
        TagBinding {
            first: entry(self.specifiers.as_slice(), first_of(names, entity)),
            content: entry(self.contents.as_slice(), entity),
            declares: entry_at(self.declaring.as_slice(), token, false),
        }
    }

    /// What is known of the tag in the specifier of a number; None where it has no tag.
    pub fn tag_of(
        &self,
        names: &Names,
        nodes: &[Node],
        tokens: &[Token],
        at: u32,
    ) -> Option<TagBinding>
        ensures { result ≡ tag_of self.now names.now nodes.now tokens.now at }
    {
        match tag_at(nodes, tokens, at as usize) {
            Some(token) => Some(self.tag_for(names, token)),
            None => None,
        }
    }
}
