// Tags by nodes.
ghost use Rattle.std.specs.Prelude.{◌≡◌, None, IfOk, length};
ghost use Rattle.cr_rows.specs.Columns.{AreOf};
ghost use Rattle.cr_check_surroundings.specs.Named.{tag_of as tag_of_node, tag_with};

use cr_check_declarations::Tag;
use cr_scopes::Names;
use cr_scopes_bindings::{Bindings, TagBinding};
use cr_syntax::{Node, number_of};
use cr_tokens::Token;
use std::alloc::{AllocError, Global};

fn tag_with(token: u32, tag: TagBinding) -> Option<Tag>
    ensures { result ≡ tag_with token tag tag.first }
{
    match tag.first {
        Some(first) => Some(Tag {
            token,
            first,
            content: tag.content,
            declares: tag.declares,
        }),
        None => None,
    }
}

fn tag_at(
    bindings: &Bindings,
    names: &Names,
    nodes: &[Node],
    tokens: &[Token],
    at: usize,
) -> Result<Option<Tag>, AllocError>
    ensures { IfOk result (λ tag. tag ≡ tag_of_node bindings.now names.now nodes.now tokens.now at) }
{
    let number = number_of(at)?;
    let token = match nodes.get(at) {
        Some(node) => node.first.checked_add(1).ok_or(AllocError)?,
        None => return Ok(None),
    };
    match bindings.tag_of(names, nodes, tokens, number) {
        Some(tag) => Ok(tag_with(token, tag)),
        None => Ok(None),
    }
}

/// The tag of each specifier of a structure or an enumeration.
pub(crate) fn tags(
    alloc: Global,
    bindings: &Bindings,
    names: &Names,
    nodes: &[Node],
    tokens: &[Token],
) -> Result<Vec<Option<Tag>>, AllocError>
    ensures { IfOk result (λ column. AreOf (tag_of_node bindings.now names.now nodes.now tokens.now) None (length nodes.now) column.items) }
{
    let mut column = Vec::new(alloc);
    for at in 0..nodes.len() {
        column.push(tag_at(bindings, names, nodes, tokens, at)?)?;
    }
    Ok(column)
}
