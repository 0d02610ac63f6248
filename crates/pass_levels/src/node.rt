// Edits of nodes.
ghost use Rattle.std.specs.Prelude.{◌≡◌, ◌++◌, drop, take, IfOk, OnOk};
ghost use Rattle.pass_levels.specs.Nodes.{becoming, bytes_of, each_becoming, in_its_place, node_at};

use crate::Counted;
use crate::place::{replaced, token_at};
use cr_rows::Row;
use cr_syntax::{Kind, Node};
use cr_tokens::Token;
use pass_edit::Text;
use std::alloc::{AllocError, Global};

/// What a node is. One that isn't there is no statement and no expression.
pub fn kind_at(nodes: &[Node], at: usize) -> Kind
    ensures { result ≡ (node_at nodes.now at).kind }
{
    match nodes.get(at) {
        Some(node) => node.kind,
        None => Kind::Void,
    }
}

/// The parts of a node, or none where it isn't there.
pub fn parts_at(nodes: &[Node], at: usize) -> &[u32]
    ensures { result.now ≡ (node_at nodes.now at).parts }
{
    match nodes.get(at) {
        Some(node) => node.parts.as_slice(),
        None => &[],
    }
}

/// The first of some parts, if there is one.
pub fn first_of(parts: &[u32]) -> &[u32]
    ensures { result.now ≡ take 1 parts.now }
{
    &parts[..parts.len().min(1)]
}

/// The parts behind the first one.
pub fn behind_first(parts: &[u32]) -> &[u32]
    ensures { result.now ≡ drop 1 parts.now }
{
    &parts[parts.len().min(1)..]
}

/// The first and the last token of a node.
pub fn span_at(nodes: &[Node], at: usize) -> (u32, u32)
    ensures { result ≡ ((node_at nodes.now at).first, (node_at nodes.now at).last) }
{
    match nodes.get(at) {
        Some(node) => (node.first, node.last),
        None => (0, 0),
    }
}

/// The bytes of the file from a node's first token to its last.
pub fn bytes_of(tokens: &[Token], nodes: &[Node], at: usize) -> Text
    ensures { result ≡ bytes_of tokens.now (node_at nodes.now at) }
{
    let (first, last) = span_at(nodes, at);
    Text::Same(
        token_at(tokens, first as usize).start,
        token_at(tokens, last as usize).end,
    )
}

/// The text comes in the place of a node's tokens, by which the edit is counted. The error is want of memory.
pub fn becoming(
    alloc: Global,
    tokens: &[Token],
    nodes: &[Node],
    at: usize,
    text: Text,
) -> Result<Counted, AllocError>
    ensures { IfOk result (λ counted. counted ≡ becoming tokens.now (node_at nodes.now at) text) }
{
    let (first, last) = span_at(nodes, at);
    let mut edit = Row::new(alloc);
    edit.push(replaced(tokens, first as usize, last as usize, text))?;
    Ok(Counted { first, last, edit })
}

/// Puts behind all others the edits by which the text comes in the place of each of these nodes. The error is want of memory.
pub fn put_each_becoming(
    alloc: Global,
    tokens: &[Token],
    nodes: &[Node],
    parts: &[u32],
    text: Text,
    all: &mut Vec<Counted>,
) -> Result<(), AllocError>
    ensures { OnOk result (all.new.items ≡ all.old.items ++ each_becoming tokens.now nodes.now parts.now text) }
{
    for part in parts {
        all.push(becoming(alloc, tokens, nodes, *part as usize, text)?)?;
    }
    Ok(())
}

/// Puts behind all others the edits by which each of these nodes comes in the place of a node. The error is want of memory.
pub fn put_in_its_place(
    alloc: Global,
    tokens: &[Token],
    nodes: &[Node],
    node: usize,
    parts: &[u32],
    all: &mut Vec<Counted>,
) -> Result<(), AllocError>
    ensures { OnOk result (all.new.items ≡ all.old.items ++ in_its_place tokens.now nodes.now node parts.now) }
{
    for part in parts {
        let text = bytes_of(tokens, nodes, *part as usize);
        all.push(becoming(alloc, tokens, nodes, node, text)?)?;
    }
    Ok(())
}
