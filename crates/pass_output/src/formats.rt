// Formats: literals that calls of `printf` print by.
ghost use Rattle.std.specs.Prelude.{◌≡◌, ◌++◌, ◌∷◌, [], drop, slice_get, IfOk, OnOk};
ghost use Rattle.cr_syntax.specs.declared.node.Kind.TheVariants.{Call};
ghost use Rattle.pass_levels.specs.Nodes.{node_at};
ghost use Rattle.pass_levels.specs.Places.{spelling_at as spelling_by};
ghost use Rattle.pass_output.specs.Formats.{conversions_in, counted_by, facts_of, format_at, format_by, is_printf, literal_by, literal_of, within};

use crate::conversions::{Conversion, conversions_of, plus};
use crate::known::Known;
use cr_rows::Row;
use cr_syntax::{Kind, Node};
use cr_tokens::Token;
use pass_edit::{Change, Text};
use pass_levels::{Counted, behind_first, gone, kind_at, parts_at, span_at, spelling_at};
use std::alloc::{AllocError, Global};

fn is_printf(text: &[u8]) -> bool
    ensures { result ≡ is_printf text.now }
{
    text == b"printf".as_slice()
}

// The token of a string literal that is one token.
fn literal_at(nodes: &[Node], node: usize) -> Option<u32>
    ensures { result ≡ literal_by (node_at nodes.now node).kind (node_at nodes.now node) }
{
    let (first, last) = span_at(nodes, node);
    match kind_at(nodes, node) {
        Kind::Text => { if first == last { Some(first) } else { None } }
        _ => None,
    }
}

fn literal_of(nodes: &[Node], part: Option<u32>) -> Option<u32>
    ensures { result ≡ literal_of nodes.now part }
{
    match part {
        Some(part) => literal_at(nodes, part as usize),
        None => None,
    }
}

fn format_of(known: &Known, call: usize) -> Option<u32>
    ensures { result ≡ format_by Call (facts_of known.now) (node_at known.now.nodes.now call) }
{
    let (name, _) = span_at(known.nodes, call);
    if is_printf(spelling_at(known.file, known.tokens, name as usize)) {
        literal_of(known.nodes, parts_at(known.nodes, call).first().copied())
    } else {
        None
    }
}

/// The token of the format of a call of `printf`, where that is one literal.
pub fn format_at(known: &Known, node: usize) -> Option<u32>
    ensures { result ≡ format_at (facts_of known.now) node }
{
    match kind_at(known.nodes, node) {
        Kind::Call => format_of(known, node),
        _ => None,
    }
}

/// A text comes in the place of a token's bytes from one on to before another. The error is that the file is too long.
pub fn within(
    tokens: &[Token],
    token: u32,
    from: u32,
    to: u32,
    text: Text,
) -> Result<Change, AllocError>
    ensures { IfOk result (λ change. change ≡ within tokens.now token from to text) }
{
    let place = gone(tokens, token as usize, token as usize).start;
    let start = plus(place, from)?;
    let end = plus(place, to)?;
    Ok(Change { start, end, text })
}

/// The bytes of a token as it is spelled, of a literal with its quotes.
pub fn spelling<'a>(known: &Known<'a>, token: u32) -> &'a [u8]
    ensures { result.now ≡ spelling_by known.now.file.now known.now.tokens.now token }
{
    spelling_at(known.file, known.tokens, token as usize)
}

/// The conversions of a format. The error is want of memory.
pub fn conversions_in(
    alloc: Global,
    known: &Known,
    token: u32,
) -> Result<Vec<Conversion>, AllocError>
    ensures { IfOk result (λ conversions. conversions.items ≡ conversions_in (facts_of known.now) token) }
{
    conversions_of(alloc, spelling(known, token))
}

// The part of a number behind the first one, where it is there.
fn behind_at(parts: &[u32], at: usize) -> Option<u32>
    ensures { result ≡ slice_get (drop 1 parts.now) at }
{
    behind_first(parts).get(at).copied()
}

/// The argument of a conversion: the one of its number behind the format, where it is there.
pub fn argument_at(known: &Known, call: usize, at: usize) -> Option<u32>
    ensures { result ≡ slice_get (drop 1 (node_at known.now.nodes.now call).parts) at }
{
    behind_at(parts_at(known.nodes, call), at)
}

/// Puts an edit of a call behind all others. The error is want of memory.
pub fn put_counted(
    known: &Known,
    call: usize,
    edit: Row<Change>,
    all: &mut Vec<Counted>,
) -> Result<(), AllocError>
    ensures { OnOk result (all.new.items ≡ all.old.items ++ counted_by (node_at known.now.nodes.now call) edit ∷ []) }
{
    let (first, last) = span_at(known.nodes, call);
    all.push(Counted { first, last, edit })?;
    Ok(())
}
