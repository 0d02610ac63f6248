//! Expressions (C11 6.5), one function a goal of the machine. They and those of operands, specifiers and declarators all call
//! one another, since casts and `sizeof` draw type names in, and these draw expressions in.

ghost use Rattle.std.specs.Prelude.{◌≡◌, ◌+◌, ◌<◌, ◌≤◌, ◌∷◌, [], true, IfOk, length};
ghost use Rattle.cr_syntax.specs.Kept.{PartsAreBelow};
ghost use Rattle.cr_syntax.specs.Reads.{is_word};
ghost use Rattle.cr_syntax_machine.specs.Machine.{passes, expression, assignment, conditional, binary, cast};
ghost use Rattle.cr_syntax_machine.specs.MachineBody.{body, tighter, type_start};
ghost use Rattle.cr_exprs_descent.specs.Source.{IsReadable, text_of};
ghost use Rattle.cr_exprs_descent.specs.Answers.{Reads, IsPlaced, tree};
ghost use Rattle.cr_exprs_descent.specs.Parts.{chosen};

use crate::arena::{is_unary, pair, triple};
use crate::fault::ParseFault;
use crate::found::Found;
use crate::operands::{grouped, unary};
use crate::source::{Source, bar, expect, room, stands, starts_plain};
use crate::specifiers::type_name;
use crate::tables::{ASSIGNMENT, kind_in, operator_in, tighter};
use cr_rows::Row;
use cr_syntax::{Kind, Node, OpenScopes, Part, Word};
use std::alloc::Global;

/// An expression (6.5.17).
#[cycle(grammar)]
pub(crate) fn expression(
    alloc: Global,
    source: &Source,
    at: usize,
    depth: usize,
    scopes: &mut OpenScopes,
    nodes: &mut Row<Node>,
) -> Result<Found, ParseFault>
    requires readable { IsReadable source.now }
    requires at { at ≤ length source.now.tokens.now }
    requires depth { depth ≤ 128 }
    requires below { PartsAreBelow nodes.old }
    ensures reads { Reads (text_of source.now) (body (expression depth)) scopes.old at nodes.new scopes.new result }
    ensures placed { IfOk result (λ x. IsPlaced (length source.now.tokens.now) at nodes.old nodes.new [] x) }
{
    let mut left = assignment(alloc, source, at, depth, scopes, nodes)?;
    'commas: while stands(source, left.next, Word::Comma) {
        let right = assignment(alloc, source, left.next + 1, depth, scopes, nodes)?;
        left = pair(
            alloc,
            nodes,
            Kind::Comma,
            at,
            right.next,
            left.node,
            right.node,
        )?;
    }
    Ok(left)
}

/// An assignment (6.5.16).
#[cycle(grammar)]
pub(crate) fn assignment(
    alloc: Global,
    source: &Source,
    at: usize,
    depth: usize,
    scopes: &mut OpenScopes,
    nodes: &mut Row<Node>,
) -> Result<Found, ParseFault>
    requires readable { IsReadable source.now }
    requires at { at ≤ length source.now.tokens.now }
    requires depth { depth ≤ 128 }
    requires below { PartsAreBelow nodes.old }
    ensures reads { Reads (text_of source.now) (body (assignment depth)) scopes.old at nodes.new scopes.new result }
    ensures placed { IfOk result (λ x. IsPlaced (length source.now.tokens.now) at nodes.old nodes.new [] x) }
{
    let left = conditional(alloc, source, at, depth, scopes, nodes)?;
    if !is_unary(nodes, left.node) {
        return Ok(left);
    }
    let Some(kind) = kind_in(&ASSIGNMENT, source, left.next) else {
        return Ok(left);
    };
    room(left.next, depth)?;
    let right = assignment(alloc, source, left.next + 1, depth + 1, scopes, nodes)?;
    pair(alloc, nodes, kind, at, right.next, left.node, right.node)
}

/// A conditional (6.5.15).
#[cycle(grammar)]
pub(crate) fn conditional(
    alloc: Global,
    source: &Source,
    at: usize,
    depth: usize,
    scopes: &mut OpenScopes,
    nodes: &mut Row<Node>,
) -> Result<Found, ParseFault>
    requires readable { IsReadable source.now }
    requires at { at ≤ length source.now.tokens.now }
    requires depth { depth ≤ 128 }
    requires below { PartsAreBelow nodes.old }
    ensures reads { Reads (text_of source.now) (body (conditional depth)) scopes.old at nodes.new scopes.new result }
    ensures placed { IfOk result (λ x. IsPlaced (length source.now.tokens.now) at nodes.old nodes.new [] x) }
{
    let test = binary(alloc, source, Part::LogicalOr, at, depth, scopes, nodes)?;
    if !stands(source, test.next, Word::Question) {
        return Ok(test);
    }
    room(test.next, depth)?;
    chosen(alloc, source, at, test, depth, scopes, nodes)
}

/// The rest of a conditional behind its `?`.
#[cycle(grammar)]
fn chosen(
    alloc: Global,
    source: &Source,
    start: usize,
    test: Found,
    depth: usize,
    scopes: &mut OpenScopes,
    nodes: &mut Row<Node>,
) -> Result<Found, ParseFault>
    requires readable { IsReadable source.now }
    requires at { test.next + 1 ≤ length source.now.tokens.now }
    requires depth { depth < 128 }
    requires below { PartsAreBelow nodes.old }
    requires start { start < test.next }
    requires node { test.node < length nodes.old }
    ensures reads { Reads (text_of source.now) (chosen depth start (tree nodes.old test.node)) scopes.old (test.next + 1) nodes.new scopes.new result }
    ensures placed { IfOk result (λ x. IsPlaced (length source.now.tokens.now) start nodes.old nodes.new (test.node ∷ []) x) }
{
    let yes = expression(alloc, source, test.next + 1, depth + 1, scopes, nodes)?;
    expect(source, yes.next, Word::Colon, depth + 1)?;
    let no = conditional(alloc, source, yes.next + 1, depth + 1, scopes, nodes)?;
    triple(
        alloc,
        nodes,
        Kind::Conditional,
        start,
        no.next,
        test.node,
        yes.node,
        no.node,
    )
}

/// A level of binary operators (6.5.14 to 6.5.5).
#[cycle(grammar)]
fn binary(
    alloc: Global,
    source: &Source,
    part: Part,
    at: usize,
    depth: usize,
    scopes: &mut OpenScopes,
    nodes: &mut Row<Node>,
) -> Result<Found, ParseFault>
    requires readable { IsReadable source.now }
    requires at { at ≤ length source.now.tokens.now }
    requires depth { depth ≤ 128 }
    requires below { PartsAreBelow nodes.old }
    ensures reads { Reads (text_of source.now) (body (binary part depth)) scopes.old at nodes.new scopes.new result }
    ensures placed { IfOk result (λ x. IsPlaced (length source.now.tokens.now) at nodes.old nodes.new [] x) }
{
    let mut left = operand(alloc, source, part, at, depth, scopes, nodes)?;
    'operands: while let Some(kind) = operator_in(part, source, left.next) {
        let right = operand(alloc, source, part, left.next + 1, depth, scopes, nodes)?;
        left = pair(alloc, nodes, kind, at, right.next, left.node, right.node)?;
    }
    Ok(left)
}

/// An operand of a level of binary operators.
#[cycle(grammar)]
fn operand(
    alloc: Global,
    source: &Source,
    part: Part,
    at: usize,
    depth: usize,
    scopes: &mut OpenScopes,
    nodes: &mut Row<Node>,
) -> Result<Found, ParseFault>
    requires readable { IsReadable source.now }
    requires at { at ≤ length source.now.tokens.now }
    requires depth { depth ≤ 128 }
    requires below { PartsAreBelow nodes.old }
    ensures reads { Reads (text_of source.now) (body (tighter part depth)) scopes.old at nodes.new scopes.new result }
    ensures placed { IfOk result (λ x. IsPlaced (length source.now.tokens.now) at nodes.old nodes.new [] x) }
{
    match tighter(part) {
        Some(next) => binary(alloc, source, next, at, depth, scopes, nodes),
        None => cast(alloc, source, at, depth, scopes, nodes),
    }
}

/// A cast (6.5.4).
#[cycle(grammar)]
pub(crate) fn cast(
    alloc: Global,
    source: &Source,
    at: usize,
    depth: usize,
    scopes: &mut OpenScopes,
    nodes: &mut Row<Node>,
) -> Result<Found, ParseFault>
    requires readable { IsReadable source.now }
    requires at { at ≤ length source.now.tokens.now }
    requires depth { depth ≤ 128 }
    requires below { PartsAreBelow nodes.old }
    ensures reads { Reads (text_of source.now) (body (cast depth)) scopes.old at nodes.new scopes.new result }
    ensures placed { IfOk result (λ x. IsPlaced (length source.now.tokens.now) at nodes.old nodes.new [] x) }
{
    if !stands(source, at, Word::LeftParen) {
        return unary(alloc, source, at, depth, scopes, nodes);
    }
    room(at, depth)?;
    if !starts_plain(source, at + 1, false, scopes) {
        return grouped(alloc, source, at, at + 1, depth, scopes, nodes);
    }
    converted(alloc, source, at, depth, scopes, nodes)
}

/// The rest of a cast behind its `(`, where a type name begins.
#[cycle(grammar)]
fn converted(
    alloc: Global,
    source: &Source,
    start: usize,
    depth: usize,
    scopes: &mut OpenScopes,
    nodes: &mut Row<Node>,
) -> Result<Found, ParseFault>
    requires readable { IsReadable source.now }
    requires depth { depth < 128 }
    requires below { PartsAreBelow nodes.old }
    requires bracket { is_word (text_of source.now) start Word.LeftParen ≡ true }
    requires starts { passes (text_of source.now) scopes.old (start + 1) type_start ≡ true }
    requires at { start + 1 ≤ length source.now.tokens.now }
    ensures reads { Reads (text_of source.now) (body (cast depth)) scopes.old start nodes.new scopes.new result }
    ensures placed { IfOk result (λ x. IsPlaced (length source.now.tokens.now) start nodes.old nodes.new [] x) }
{
    let to = type_name(alloc, source, start + 1, depth + 1, scopes, nodes)?;
    expect(source, to.next, Word::RightParen, depth + 1)?;
    bar(source, to.next + 1, Word::LeftBrace, 3, depth + 1)?;
    let from = cast(alloc, source, to.next + 1, depth + 1, scopes, nodes)?;
    pair(
        alloc,
        nodes,
        Kind::Cast,
        start,
        from.next,
        to.node,
        from.node,
    )
}
