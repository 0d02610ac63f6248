//! Declarations and initializers (C11 6.7, 6.7.9), one function a goal of the machine.

ghost use Rattle.std.specs.Prelude.{◌≡◌, ◌+◌, ◌<◌, ◌≤◌, ◌∷◌, [], IfOk, length};
ghost use Rattle.cr_syntax.specs.Trees.{none, ◌&◌};
ghost use Rattle.cr_syntax.specs.Kept.{PartsAreBelow};
ghost use Rattle.cr_syntax.specs.Context.{fresh, past_part};
ghost use Rattle.cr_syntax_machine.specs.Machine.{initializer, initializers, initialized, declaration};
ghost use Rattle.cr_syntax_machine.specs.MachineBody.{body, declared_on};
ghost use Rattle.cr_exprs_descent.specs.Source.{IsReadable, text_of};
ghost use Rattle.cr_exprs_descent.specs.Answers.{Reads, IsPlaced, IsGrown, tree};

use crate::start::bar_designator;
use cr_exprs_descent::{
    Found, Goal, ParseFault, Source, declare, expect, named_declarator, over, pair, past, push,
    read, room, row_of, specifier_row, stands,
};
use cr_rows::Row;
use cr_syntax::{FRESH, Kind, Node, OpenScopes, Word, past_token};
use std::alloc::Global;

/// An initializer (6.7.9).
#[cycle(initializers)]
pub(crate) fn initializer(
    alloc: Global,
    source: &Source,
    at: usize,
    depth: usize,
    scopes: &mut OpenScopes,
    nodes: &mut Row<Node>,
) -> Result<Found, ParseFault>
    requires readable { IsReadable source.now }
    requires at { at ≤ length source.now.tokens.now }
    requires depth { depth ≤ 128 }
    requires below { PartsAreBelow nodes.old }
    ensures reads { Reads (text_of source.now) (body (initializer depth)) scopes.old at nodes.new scopes.new result }
    ensures placed { IfOk result (λ x. IsPlaced (length source.now.tokens.now) at nodes.old nodes.new [] x) }
{
    bar_designator(source, at, depth)?;
    if !stands(source, at, Word::LeftBrace) {
        return read(alloc, source, Goal::Assignment, at, depth, scopes, nodes);
    }
    room(at, depth)?;
    initializers(alloc, source, at, depth, scopes, nodes)
}

/// The initializers of a list behind its `{`, and its `}`.
#[cycle(initializers)]
fn initializers(
    alloc: Global,
    source: &Source,
    start: usize,
    depth: usize,
    scopes: &mut OpenScopes,
    nodes: &mut Row<Node>,
) -> Result<Found, ParseFault>
    requires readable { IsReadable source.now }
    requires at { start + 1 ≤ length source.now.tokens.now }
    requires depth { depth < 128 }
    requires below { PartsAreBelow nodes.old }
    ensures reads { Reads (text_of source.now) (body (initializers depth start none)) scopes.old (start + 1) nodes.new scopes.new result }
    ensures placed { IfOk result (λ x. IsPlaced (length source.now.tokens.now) start nodes.old nodes.new [] x) }
{
    let mut parts = Row::new(alloc);
    let mut next = start + 1;
    'initializers: loop {
        let one = initializer(alloc, source, next, depth + 1, scopes, nodes)?;
        parts.push(one.node)?;
        next = one.next + 1;
        if !stands(source, one.next, Word::Comma) {
            expect(source, one.next, Word::RightBrace, depth + 1)?;
            return push(nodes, Kind::InitializerList, start, next, parts);
        }
        if stands(source, next, Word::RightBrace) {
            return push(nodes, Kind::InitializerList, start, next + 1, parts);
        }
    }
}

/// A declarator that began at `start`, with the initializer behind it or none (6.7.9).
fn initialized(
    alloc: Global,
    source: &Source,
    start: usize,
    declarator: Found,
    depth: usize,
    scopes: &mut OpenScopes,
    nodes: &mut Row<Node>,
) -> Result<Found, ParseFault>
    requires readable { IsReadable source.now }
    requires at { declarator.next ≤ length source.now.tokens.now }
    requires depth { depth ≤ 128 }
    requires below { PartsAreBelow nodes.old }
    requires start { start < declarator.next }
    requires node { declarator.node + 1 ≡ length nodes.old }
    ensures reads { Reads (text_of source.now) (body (initialized depth start (tree nodes.old declarator.node))) scopes.old declarator.next nodes.new scopes.new result }
    ensures grown { IfOk result (λ x. IsGrown (length source.now.tokens.now) start nodes.old nodes.new (declarator.node ∷ []) x) }
    ensures far { IfOk result (λ x. declarator.next ≤ x.next) }
{
    if !stands(source, declarator.next, Word::Equal) {
        return Ok(declarator);
    }
    let value = initializer(alloc, source, declarator.next + 1, depth, scopes, nodes)?;
    pair(
        alloc,
        nodes,
        Kind::InitDeclarator,
        start,
        value.next,
        declarator.node,
        value.node,
    )
}

/// A declaration (6.7).
pub(crate) fn declaration(
    alloc: Global,
    source: &Source,
    at: usize,
    depth: usize,
    scopes: &mut OpenScopes,
    nodes: &mut Row<Node>,
) -> Result<Found, ParseFault>
    requires readable { IsReadable source.now }
    requires at { at ≤ length source.now.tokens.now }
    requires depth { depth ≤ 128 }
    requires below { PartsAreBelow nodes.old }
    ensures reads { Reads (text_of source.now) (body (declaration depth)) scopes.old at nodes.new scopes.new result }
    ensures placed { IfOk result (λ x. IsPlaced (length source.now.tokens.now) at nodes.old nodes.new [] x) }
{
    let specifiers = specifier_row(alloc, source, at, depth, scopes, nodes)?;
    if stands(source, specifiers.next, Word::Semicolon) {
        return over(
            alloc,
            nodes,
            Kind::Declaration,
            at,
            specifiers.next + 1,
            specifiers.node,
        );
    }
    let context = past(nodes, FRESH, specifiers.node);
    let first = named_declarator(
        alloc,
        source,
        context,
        specifiers.next,
        depth,
        scopes,
        nodes,
    )?;
    declarators(alloc, source, at, specifiers, first, depth, scopes, nodes)
}

/// The declarators of a declaration from its first one on, which was read behind the specifiers, and the `;`.
pub(crate) fn declarators(
    alloc: Global,
    source: &Source,
    start: usize,
    specifiers: Found,
    first: Found,
    depth: usize,
    scopes: &mut OpenScopes,
    nodes: &mut Row<Node>,
) -> Result<Found, ParseFault>
    requires readable { IsReadable source.now }
    requires at { first.next ≤ length source.now.tokens.now }
    requires depth { depth ≤ 128 }
    requires below { PartsAreBelow nodes.old }
    requires start { start < specifiers.next }
    requires from { specifiers.next < first.next }
    requires specifiers { specifiers.node < length nodes.old }
    requires node { first.node + 1 ≡ length nodes.old }
    ensures reads { Reads (text_of source.now) (declared_on (past_part fresh (tree nodes.old specifiers.node)) depth start (tree nodes.old specifiers.node & none) specifiers.next (tree nodes.old first.node)) scopes.old first.next nodes.new scopes.new result }
    ensures placed { IfOk result (λ x. IsPlaced (length source.now.tokens.now) start nodes.old nodes.new (first.node ∷ specifiers.node ∷ []) x) }
{
    let mut context = past(nodes, FRESH, specifiers.node);
    let mut parts = row_of(alloc, specifiers.node)?;
    let mut from = specifiers.next;
    let mut one = first;
    'declarators: loop {
        declare(alloc, source, context, one, scopes, nodes)?;
        let whole = initialized(alloc, source, from, one, depth, scopes, nodes)?;
        parts.push(whole.node)?;
        if !stands(source, whole.next, Word::Comma) {
            expect(source, whole.next, Word::Semicolon, depth)?;
            return push(nodes, Kind::Declaration, start, whole.next + 1, parts);
        }
        context = past_token(context);
        from = whole.next + 1;
        one = named_declarator(alloc, source, context, from, depth, scopes, nodes)?;
    }
}
