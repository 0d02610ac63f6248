// Which node declares the name, or has the tag, at a token.
ghost use Rattle.std.specs.Prelude.{◌≡◌, ◌+◌, Some, IfOk, length, slice_get};
ghost use Rattle.cr_scopes_bindings.specs.Last.{AreLast};
ghost use Rattle.cr_scopes_bindings.specs.Entities.{content_entity};
ghost use Rattle.cr_scopes_bindings.specs.Nodes.{content_at as content_of_node, name_at as name_of_node, named_by, tag_at as tag_of_node, tag_by, tag_if_there, with_content};
ghost use Rattle.cr_scopes_events.specs.Scripts.{is_identifier};

use crate::entities::entity_at;
use crate::last::put;
use cr_scopes::Names;
use cr_scopes_events::declared_by;
use cr_syntax::{Kind, Node, number_of};
use cr_tokens::{Token, TokenKind};
use std::alloc::{AllocError, Global};

fn named_by(kind: Kind, first: u32, name: Option<u32>) -> Option<u32>
    ensures { result ≡ named_by kind first name }
{
    match kind {
        Kind::Enumerator => Some(first),
        _ => name,
    }
}

/// The token of the ordinary identifier that a node declares, or that the declarator around it declares.
pub fn name_at(nodes: &[Node], at: u32) -> Option<u32>
    ensures { result ≡ name_of_node nodes.now at }
{
    match nodes.get(at as usize) {
        Some(node) => named_by(node.kind, node.first, declared_by(nodes, at).name),
        None => None,
    }
}

fn key_of(token: Option<u32>) -> Option<usize>
    ensures { result ≡ token }
{
    match token {
        Some(token) => Some(token as usize),
        None => None,
    }
}

/// For each token the whole declarator, or the enumerator, that declares it.
pub(crate) fn declarers(
    alloc: Global,
    nodes: &[Node],
    tokens: usize,
) -> Result<Vec<Option<u32>>, AllocError>
    ensures { IfOk result (λ column. AreLast (name_of_node nodes.now) (length nodes.now) tokens column.items) }
{
    let mut column = vec![in alloc; None; tokens]?;
    for at in 0..nodes.len() {
        let number = number_of(at)?;
        put(&mut column, key_of(name_at(nodes, number)), number);
    }
    Ok(column)
}

fn is_identifier(tokens: &[Token], at: usize) -> bool
    ensures { result ≡ is_identifier (slice_get tokens.now at) }
{
    if at < tokens.len() {
        match tokens[at].kind {
            TokenKind::Identifier => true,
            _ => false,
        }
    } else {
        false
    }
}

fn tag_if_there(tokens: &[Token], at: usize) -> Option<usize>
    ensures { result ≡ tag_if_there tokens.now at }
{
    if is_identifier(tokens, at) {
        Some(at)
    } else {
        None
    }
}

fn tag_by(kind: Kind, tokens: &[Token], word: u32) -> Option<usize>
    ensures { result ≡ tag_by kind tokens.now word }
{
    match kind {
        Kind::StructTag | Kind::EnumTag => Some(word as usize + 1),
        Kind::StructContent | Kind::EnumContent => tag_if_there(tokens, word as usize + 1),
        _ => None,
    }
}

/// The token of the tag in a specifier of a structure or an enumeration.
pub(crate) fn tag_at(nodes: &[Node], tokens: &[Token], at: usize) -> Option<usize>
    ensures { result ≡ tag_of_node nodes.now tokens.now at }
{
    match nodes.get(at) {
        Some(node) => tag_by(node.kind, tokens, node.first),
        None => None,
    }
}

fn with_content(kind: Kind, tag: Option<usize>) -> Option<usize>
    ensures { result ≡ with_content kind tag }
{
    match kind {
        Kind::StructContent | Kind::EnumContent => tag,
        _ => None,
    }
}

fn content_at(nodes: &[Node], tokens: &[Token], at: usize) -> Option<usize>
    ensures { result ≡ content_of_node nodes.now tokens.now at }
{
    match nodes.get(at) {
        Some(node) => with_content(node.kind, tag_by(node.kind, tokens, node.first)),
        None => None,
    }
}

/// For each token the last specifier that has it as its tag.
pub(crate) fn specifiers(
    alloc: Global,
    nodes: &[Node],
    tokens: &[Token],
) -> Result<Vec<Option<u32>>, AllocError>
    ensures { IfOk result (λ column. AreLast (tag_of_node nodes.now tokens.now) (length nodes.now) (length tokens.now) column.items) }
{
    let mut column = vec![in alloc; None; tokens.len()]?;
    for at in 0..nodes.len() {
        let number = number_of(at)?;
        put(&mut column, tag_at(nodes, tokens, at), number);
    }
    Ok(column)
}

fn content_entity(names: &Names, nodes: &[Node], tokens: &[Token], at: usize) -> Option<usize>
    ensures { result ≡ content_entity names.now nodes.now tokens.now at }
{
    match content_at(nodes, tokens, at) {
        Some(token) => entity_at(names, token),
        None => None,
    }
}

/// For each entity the specifier with its content.
pub(crate) fn contents(
    alloc: Global,
    names: &Names,
    nodes: &[Node],
    tokens: &[Token],
) -> Result<Vec<Option<u32>>, AllocError>
    ensures { IfOk result (λ column. AreLast (content_entity names.now nodes.now tokens.now) (length nodes.now) (length names.now.entities) column.items) }
{
    let mut column = vec![in alloc; None; names.entities.len()]?;
    for at in 0..nodes.len() {
        let number = number_of(at)?;
        put(
            &mut column,
            content_entity(names, nodes, tokens, at),
            number,
        );
    }
    Ok(column)
}
