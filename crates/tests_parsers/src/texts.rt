use cr_exprs::ParseFault;
use cr_syntax::{Kind, Node};
use cr_tokens::Tokens;
use std::alloc::{AllocError, Global};
use std::process::Abort;

/// The rows of a table: its lines but the headings, which have no cells.
pub(crate) fn rows(alloc: Global, table: &'static str) -> Result<Vec<&'static str>, AllocError> {
    let mut rows = Vec::new(alloc);
    for line in table.lines() {
        if line.contains('¦') {
            rows.push(line)?;
        }
    }
    Ok(rows)
}

/// The first cell of a row, and the others.
pub(crate) fn pair(row: &str) -> (&str, &str) {
    match row.split_once('¦') {
        Some(cells) => cells,
        None => (row, "no second cell"),
    }
}

/// The three cells of a row.
pub(crate) fn triple(row: &str) -> (&str, &str, &str) {
    let (first, rest) = pair(row);
    let (second, third) = pair(rest);
    (first, second, third)
}

/// The one assertion of tables.
pub(crate) fn expect(rt: &impl Abort, found: &str, wanted: &str, row: &str) {
    assert!(rt; found == wanted, "{row}: {found}");
}

/// A fault in words.
pub(crate) fn fault_text(alloc: Global, fault: Option<ParseFault>) -> Result<String, AllocError> {
    match fault {
        Some(fault) => format!(in alloc; "{fault:?}"),
        None => String::from_str(alloc, "none"),
    }
}

fn push_times(out: &mut String, piece: &str, count: usize) -> Result<(), AllocError> {
    for _ in 0..count {
        out.push_str(piece)?;
    }
    Ok(())
}

fn push_nest(
    out: &mut String,
    open: &str,
    count: usize,
    inner: &str,
    close: &str,
) -> Result<(), AllocError> {
    push_times(out, open, count)?;
    out.push_str(inner)?;
    push_times(out, close, count)
}

/// A text with something repeated before and behind its middle.
pub(crate) fn nested(
    alloc: Global,
    before: &str,
    open: &str,
    count: usize,
    inner: &str,
    close: &str,
    end: &str,
) -> Result<String, AllocError> {
    let mut text = String::from_str(alloc, before)?;
    push_nest(&mut text, open, count, inner, close)?;
    text.push_str(end)?;
    Ok(text)
}

/// How a declared name and a typedef name are shown.
#[derive(Clone, Copy)]
pub(crate) enum Names {
    ByKind,
    BySpelling,
}

/// The nodes with these numbers in words, with a space between them: a node is its kind and its parts in brackets, and an
/// identifier, a constant or a text is its spelling.
pub(crate) fn shown(
    alloc: Global,
    text: &str,
    tokens: &Tokens,
    nodes: &[Node],
    numbers: &[u32],
    names: Names,
) -> Result<String, AllocError> {
    let mut shown: Vec<String> = Vec::new(alloc);
    for node in nodes {
        let text = node_shown(alloc, text, tokens, node, &shown, names)?;
        shown.push(text)?;
    }
    all_shown(alloc, &shown, numbers)
}

fn all_shown(alloc: Global, shown: &[String], numbers: &[u32]) -> Result<String, AllocError> {
    let mut out = String::new(alloc);
    push_all(&mut out, shown, numbers)?;
    Ok(out)
}

// A node in words, by those of the nodes before it.
fn node_shown(
    alloc: Global,
    text: &str,
    tokens: &Tokens,
    node: &Node,
    shown: &[String],
    names: Names,
) -> Result<String, AllocError> {
    let mut out = String::new(alloc);
    push_kind(alloc, &mut out, text, tokens, node, names)?;
    push_parts(&mut out, shown, node.parts.as_slice())?;
    Ok(out)
}

fn push_parts(out: &mut String, shown: &[String], parts: &[u32]) -> Result<(), AllocError> {
    if parts.is_empty() {
        return Ok(());
    }
    out.push('[')?;
    push_all(out, shown, parts)?;
    out.push(']')
}

fn push_all(out: &mut String, shown: &[String], numbers: &[u32]) -> Result<(), AllocError> {
    for (k, part) in numbers.iter().enumerate() {
        if k > 0 {
            out.push(' ')?;
        }
        if let Some(inner) = shown.get(*part as usize) {
            out.push_str(inner.as_str())?;
        }
    }
    Ok(())
}

fn push_kind(
    alloc: Global,
    out: &mut String,
    text: &str,
    tokens: &Tokens,
    node: &Node,
    names: Names,
) -> Result<(), AllocError> {
    if is_spelled(node.kind, names) {
        return push_tokens(out, text, tokens, node);
    }
    let word = format!(in alloc; "{:?}", node.kind)?;
    out.push_str(word.as_str())
}

fn is_spelled(kind: Kind, names: Names) -> bool {
    match kind {
        Kind::Identifier | Kind::Integer | Kind::Character | Kind::Text => true,
        Kind::NameDeclarator | Kind::TypedefName => matches!(names, Names::BySpelling),
        _ => false,
    }
}

fn push_tokens(
    out: &mut String,
    text: &str,
    tokens: &Tokens,
    node: &Node,
) -> Result<(), AllocError> {
    for (k, token) in tokens.list.iter().enumerate() {
        if (node.first as usize) <= k && k <= node.last as usize {
            if k > node.first as usize {
                out.push(' ')?;
            }
            if let Some(piece) = text.get(token.start as usize..token.end as usize) {
                out.push_str(piece)?;
            }
        }
    }
    Ok(())
}
