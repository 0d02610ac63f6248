// String literals.
ghost use Rattle.std.specs.Prelude.{◌≡◌, IfOk};
ghost use Rattle.cr_syntax.specs.Words.{AreSpans};
ghost use Rattle.cr_check_constants.specs.Literals.{inside_of};
ghost use Rattle.cr_check_literals.specs.Characters.{bytes_of};
ghost use Rattle.cr_check_literals.specs.Texts.{joined as joined_of, literal_of, text_at as text_of, AreTexts};

use crate::escape::put_bytes;
use cr_rows::Row;
use cr_syntax::{Kind, Node, spelling_at};
use cr_tokens::Token;
use std::alloc::{AllocError, Global};

// What stands between the quotes.
fn inside(spelling: &[u8]) -> &[u8]
    ensures { result.now ≡ inside_of spelling.now }
{
    if spelling.len() < 2 {
        &spelling[..0]
    } else {
        &spelling[1..spelling.len() - 1]
    }
}

/// The bytes of one string literal by its spelling, escape sequences read; no zero stands behind them. The error is want of memory.
pub fn literal_bytes(alloc: Global, spelling: &[u8]) -> Result<Vec<u8>, AllocError>
    ensures { IfOk result (λ bytes. bytes.items ≡ bytes_of (inside_of spelling.now)) }
{
    let mut bytes = Vec::new(alloc);
    put_bytes(&mut bytes, inside(spelling))?;
    Ok(bytes)
}

// The bytes of so many adjacent tokens.
fn joined(
    alloc: Global,
    file: &[u8],
    tokens: &[Token],
    first: u32,
    count: usize,
) -> Result<Vec<u8>, AllocError>
    requires { AreSpans file.now tokens.now }
    ensures { IfOk result (λ bytes. bytes.items ≡ joined_of file.now tokens.now first count) }
{
    let mut bytes = Vec::new(alloc);
    for at in 0..count {
        let token = (first as usize).saturating_add(at);
        put_bytes(&mut bytes, inside(spelling_at(file, tokens, token)))?;
    }
    Ok(bytes)
}

fn literal(alloc: Global, file: &[u8], tokens: &[Token], node: &Node) -> Result<Row<u8>, AllocError>
    requires { AreSpans file.now tokens.now }
    ensures { IfOk result (λ text. text ≡ literal_of file.now tokens.now node.now) }
{
    let count = (node.last as usize + 1).saturating_sub(node.first as usize);
    let mut bytes = joined(alloc, file, tokens, node.first, count)?;
    bytes.push(0)?;
    Ok(Row::from_vec(bytes))
}

fn text_at(
    alloc: Global,
    file: &[u8],
    tokens: &[Token],
    nodes: &[Node],
    at: usize,
) -> Result<Row<u8>, AllocError>
    requires { AreSpans file.now tokens.now }
    ensures { IfOk result (λ text. text ≡ text_of file.now tokens.now nodes.now at) }
{
    if at >= nodes.len() {
        return Ok(Row::new(alloc));
    }
    match nodes[at].kind {
        Kind::Text => literal(alloc, file, tokens, &nodes[at]),
        _ => Ok(Row::new(alloc)),
    }
}

/// For each node the bytes of the string literal that it is: those of its adjacent tokens joined, with escape sequences read and a zero
/// behind them (C11 6.4.5p5, p6); other nodes have none. The error is want of memory.
pub fn texts(
    alloc: Global,
    file: &[u8],
    tokens: &[Token],
    nodes: &[Node],
) -> Result<Vec<Row<u8>>, AllocError>
    requires { AreSpans file.now tokens.now }
    ensures { IfOk result (λ texts. AreTexts file.now tokens.now nodes.now texts.items) }
{
    let mut texts = Vec::with_capacity(alloc, nodes.len())?;
    for at in 0..nodes.len() {
        texts.push(text_at(alloc, file, tokens, nodes, at)?)?;
    }
    Ok(texts)
}
