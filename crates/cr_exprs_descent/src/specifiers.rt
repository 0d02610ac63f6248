//! Type names and specifiers (C11 6.7.7, 6.7.2).

ghost use Rattle.std.specs.Prelude.{◌≡◌, ◌+◌, ◌<◌, ◌≤◌, ◌∷◌, [], IfOk, length};
ghost use Rattle.cr_syntax.specs.Trees.{none, ◌&◌};
ghost use Rattle.cr_syntax.specs.Kept.{PartsAreBelow};
ghost use Rattle.cr_syntax.specs.Context.{fresh, past_part};
ghost use Rattle.cr_syntax_machine.specs.Machine.{passes, type_name, row, element, structure, members, member, member_declarators, enumeration, enumerators, enumerator};
ghost use Rattle.cr_syntax_machine.specs.MachineBody.{body, element_start};
ghost use Rattle.cr_exprs_descent.specs.Source.{IsReadable, text_of};
ghost use Rattle.cr_exprs_descent.specs.Answers.{Reads, IsPlaced, tree};

use crate::arena::{gathered, leaf, over, pair, past, push, row_of};
use crate::declarators::{Wanted, declarator};
use crate::expressions::conditional;
use crate::fault::ParseFault;
use crate::found::{Found, Listed};
use crate::scopes::{bring, drop_scope};
use crate::source::{
    Source, bar, expect, is_type_identifier, refused, room, stands, starts_abstract, starts_plain,
    starts_specifier,
};
use crate::tables::specifier_in;
use cr_rows::Row;
use cr_syntax::{Context, FRESH, Kind, Node, OpenScopes, Part, Word, past_token};
use std::alloc::Global;

/// A type name (6.7.7).
#[cycle(grammar)]
pub(crate) fn type_name(
    alloc: Global,
    source: &Source,
    at: usize,
    depth: usize,
    scopes: &mut OpenScopes,
    nodes: &mut Row<Node>,
) -> Result<Found, ParseFault>
    requires readable { IsReadable source.now }
    requires at { at ≤ length source.now.tokens.now }
    requires depth { depth ≤ 128 }
    requires below { PartsAreBelow nodes.old }
    ensures reads { Reads (text_of source.now) (body (type_name depth)) scopes.old at nodes.new scopes.new result }
    ensures placed { IfOk result (λ x. IsPlaced (length source.now.tokens.now) at nodes.old nodes.new [] x) }
{
    let specifiers = row(
        alloc,
        source,
        Part::PlainSpecifiers,
        at,
        depth,
        scopes,
        nodes,
    )?;
    if !starts_abstract(source, specifiers.next) {
        return Ok(specifiers);
    }
    let rest = declarator(
        alloc,
        source,
        Wanted::Unnamed,
        FRESH,
        specifiers.next,
        depth,
        scopes,
        nodes,
    )?;
    pair(
        alloc,
        nodes,
        Kind::TypeName,
        at,
        rest.next,
        specifiers.node,
        rest.node,
    )
}

/// A row of specifiers, with storage classes or without.
#[cycle(grammar)]
pub(crate) fn row(
    alloc: Global,
    source: &Source,
    part: Part,
    at: usize,
    depth: usize,
    scopes: &mut OpenScopes,
    nodes: &mut Row<Node>,
) -> Result<Found, ParseFault>
    requires readable { IsReadable source.now }
    requires at { at ≤ length source.now.tokens.now }
    requires depth { depth ≤ 128 }
    requires below { PartsAreBelow nodes.old }
    ensures reads { Reads (text_of source.now) (body (row part fresh depth)) scopes.old at nodes.new scopes.new result }
    ensures placed { IfOk result (λ x. IsPlaced (length source.now.tokens.now) at nodes.old nodes.new [] x) }
{
    let first = element(alloc, source, part, FRESH, at, depth, scopes, nodes)?;
    let mut context = past(nodes, FRESH, first.node);
    let mut parts = row_of(alloc, first.node)?;
    let mut next = first.next;
    'more: while starts_element(source, part, next, context.typed, scopes) {
        let more = element(alloc, source, part, context, next, depth, scopes, nodes)?;
        context = past(nodes, context, more.node);
        parts.push(more.node)?;
        next = more.next;
    }
    gathered(nodes, part, at, Listed { parts, next })
}

/// Whether a row of specifiers goes on here.
fn starts_element(source: &Source, part: Part, at: usize, typed: bool, scopes: &OpenScopes) -> bool
    requires { IsReadable source.now }
    ensures { result ≡ passes (text_of source.now) scopes.now at (element_start part typed) }
{
    match part {
        Part::Specifiers => starts_specifier(source, at, typed, scopes),
        _ => starts_plain(source, at, typed, scopes),
    }
}

/// A specifier.
#[cycle(grammar)]
fn element(
    alloc: Global,
    source: &Source,
    part: Part,
    context: Context,
    at: usize,
    depth: usize,
    scopes: &mut OpenScopes,
    nodes: &mut Row<Node>,
) -> Result<Found, ParseFault>
    requires readable { IsReadable source.now }
    requires at { at ≤ length source.now.tokens.now }
    requires depth { depth ≤ 128 }
    requires below { PartsAreBelow nodes.old }
    ensures reads { Reads (text_of source.now) (body (element part context depth)) scopes.old at nodes.new scopes.new result }
    ensures placed { IfOk result (λ x. IsPlaced (length source.now.tokens.now) at nodes.old nodes.new [] x) }
{
    if let Some(kind) = specifier_in(part, source, at) {
        return leaf(alloc, nodes, kind, at, at + 1);
    }
    if stands(source, at, Word::Struct) {
        return structure(alloc, source, at, depth, scopes, nodes);
    }
    if stands(source, at, Word::Enum) {
        return enumeration(alloc, source, at, depth, scopes, nodes);
    }
    if !is_type_identifier(source, at, context.typed, scopes) {
        return Err(refused(source, at, depth));
    }
    leaf(alloc, nodes, Kind::TypedefName, at, at + 1)
}

/// What stands behind `struct` (6.7.2.1).
#[cycle(grammar)]
fn structure(
    alloc: Global,
    source: &Source,
    start: usize,
    depth: usize,
    scopes: &mut OpenScopes,
    nodes: &mut Row<Node>,
) -> Result<Found, ParseFault>
    requires readable { IsReadable source.now }
    requires at { start + 1 ≤ length source.now.tokens.now }
    requires depth { depth ≤ 128 }
    requires below { PartsAreBelow nodes.old }
    ensures reads { Reads (text_of source.now) (body (structure depth start)) scopes.old (start + 1) nodes.new scopes.new result }
    ensures placed { IfOk result (λ x. IsPlaced (length source.now.tokens.now) start nodes.old nodes.new [] x) }
{
    if stands(source, start + 1, Word::Identifier) {
        if !stands(source, start + 1 + 1, Word::LeftBrace) {
            return leaf(alloc, nodes, Kind::StructTag, start, start + 1 + 1);
        }
        room(start + 1 + 1, depth)?;
        return members(
            alloc,
            source,
            start,
            start + 1 + 1 + 1,
            depth,
            scopes,
            nodes,
        );
    }
    expect(source, start + 1, Word::LeftBrace, depth)?;
    room(start + 1, depth)?;
    members(alloc, source, start, start + 1 + 1, depth, scopes, nodes)
}

/// The members of a structure behind its `{`, and its `}`.
#[cycle(grammar)]
fn members(
    alloc: Global,
    source: &Source,
    start: usize,
    at: usize,
    depth: usize,
    scopes: &mut OpenScopes,
    nodes: &mut Row<Node>,
) -> Result<Found, ParseFault>
    requires readable { IsReadable source.now }
    requires at { at ≤ length source.now.tokens.now }
    requires depth { depth < 128 }
    requires below { PartsAreBelow nodes.old }
    requires start { start < at }
    ensures reads { Reads (text_of source.now) (body (members depth start none)) scopes.old at nodes.new scopes.new result }
    ensures placed { IfOk result (λ x. IsPlaced (length source.now.tokens.now) start nodes.old nodes.new [] x) }
{
    let mut parts = Row::new(alloc);
    let mut next = at;
    'members: loop {
        let declaration = member_declaration(alloc, source, next, depth + 1, scopes, nodes)?;
        parts.push(declaration.node)?;
        next = declaration.next;
        if stands(source, next, Word::RightBrace) {
            return push(nodes, Kind::StructContent, start, next + 1, parts);
        }
    }
}

/// The declaration of members.
#[cycle(grammar)]
fn member_declaration(
    alloc: Global,
    source: &Source,
    at: usize,
    depth: usize,
    scopes: &mut OpenScopes,
    nodes: &mut Row<Node>,
) -> Result<Found, ParseFault>
    requires readable { IsReadable source.now }
    requires at { at ≤ length source.now.tokens.now }
    requires depth { depth ≤ 128 }
    requires below { PartsAreBelow nodes.old }
    ensures reads { Reads (text_of source.now) (body (member depth)) scopes.old at nodes.new scopes.new result }
    ensures placed { IfOk result (λ x. IsPlaced (length source.now.tokens.now) at nodes.old nodes.new [] x) }
{
    let specifiers = row(
        alloc,
        source,
        Part::PlainSpecifiers,
        at,
        depth,
        scopes,
        nodes,
    )?;
    member_declarators(alloc, source, at, specifiers, depth, scopes, nodes)
}

/// The declarators of members behind their specifiers, and the `;`.
#[cycle(grammar)]
fn member_declarators(
    alloc: Global,
    source: &Source,
    start: usize,
    specifiers: Found,
    depth: usize,
    scopes: &mut OpenScopes,
    nodes: &mut Row<Node>,
) -> Result<Found, ParseFault>
    requires readable { IsReadable source.now }
    requires at { specifiers.next ≤ length source.now.tokens.now }
    requires depth { depth ≤ 128 }
    requires below { PartsAreBelow nodes.old }
    requires start { start < specifiers.next }
    requires node { specifiers.node + 1 ≡ length nodes.old }
    ensures reads { Reads (text_of source.now) (body (member_declarators (past_part fresh (tree nodes.old specifiers.node)) depth start (tree nodes.old specifiers.node & none))) scopes.old specifiers.next nodes.new scopes.new result }
    ensures placed { IfOk result (λ x. IsPlaced (length source.now.tokens.now) start nodes.old nodes.new (specifiers.node ∷ []) x) }
{
    let mut context = past(nodes, FRESH, specifiers.node);
    let mut parts = row_of(alloc, specifiers.node)?;
    let mut next = specifiers.next;
    'declarators: loop {
        let one = declarator(
            alloc,
            source,
            Wanted::Named,
            context,
            next,
            depth,
            scopes,
            nodes,
        )?;
        drop_scope(scopes);
        parts.push(one.node)?;
        bar(source, one.next, Word::Colon, 5, depth)?;
        next = one.next + 1;
        if !stands(source, one.next, Word::Comma) {
            expect(source, one.next, Word::Semicolon, depth)?;
            return push(nodes, Kind::MemberDeclaration, start, next, parts);
        }
        context = past_token(context);
    }
}

/// What stands behind `enum` (6.7.2.2).
#[cycle(grammar)]
fn enumeration(
    alloc: Global,
    source: &Source,
    start: usize,
    depth: usize,
    scopes: &mut OpenScopes,
    nodes: &mut Row<Node>,
) -> Result<Found, ParseFault>
    requires readable { IsReadable source.now }
    requires at { start + 1 ≤ length source.now.tokens.now }
    requires depth { depth ≤ 128 }
    requires below { PartsAreBelow nodes.old }
    ensures reads { Reads (text_of source.now) (body (enumeration depth start)) scopes.old (start + 1) nodes.new scopes.new result }
    ensures placed { IfOk result (λ x. IsPlaced (length source.now.tokens.now) start nodes.old nodes.new [] x) }
{
    if stands(source, start + 1, Word::Identifier) {
        if !stands(source, start + 1 + 1, Word::LeftBrace) {
            return leaf(alloc, nodes, Kind::EnumTag, start, start + 1 + 1);
        }
        room(start + 1 + 1, depth)?;
        return enumerators(
            alloc,
            source,
            start,
            start + 1 + 1 + 1,
            depth,
            scopes,
            nodes,
        );
    }
    expect(source, start + 1, Word::LeftBrace, depth)?;
    room(start + 1, depth)?;
    enumerators(alloc, source, start, start + 1 + 1, depth, scopes, nodes)
}

/// The enumerators of an enumeration behind its `{`, and its `}`.
#[cycle(grammar)]
fn enumerators(
    alloc: Global,
    source: &Source,
    start: usize,
    at: usize,
    depth: usize,
    scopes: &mut OpenScopes,
    nodes: &mut Row<Node>,
) -> Result<Found, ParseFault>
    requires readable { IsReadable source.now }
    requires at { at ≤ length source.now.tokens.now }
    requires depth { depth < 128 }
    requires below { PartsAreBelow nodes.old }
    requires start { start < at }
    ensures reads { Reads (text_of source.now) (body (enumerators depth start none)) scopes.old at nodes.new scopes.new result }
    ensures placed { IfOk result (λ x. IsPlaced (length source.now.tokens.now) start nodes.old nodes.new [] x) }
{
    let mut parts = Row::new(alloc);
    let mut next = at;
    'enumerators: loop {
        let one = enumerator(alloc, source, next, depth + 1, scopes, nodes)?;
        parts.push(one.node)?;
        next = one.next + 1;
        if !stands(source, one.next, Word::Comma) {
            expect(source, one.next, Word::RightBrace, depth + 1)?;
            return push(nodes, Kind::EnumContent, start, next, parts);
        }
        if stands(source, next, Word::RightBrace) {
            return push(nodes, Kind::EnumContent, start, next + 1, parts);
        }
    }
}

/// An enumerator, whose name is in scope behind it.
#[cycle(grammar)]
fn enumerator(
    alloc: Global,
    source: &Source,
    at: usize,
    depth: usize,
    scopes: &mut OpenScopes,
    nodes: &mut Row<Node>,
) -> Result<Found, ParseFault>
    requires readable { IsReadable source.now }
    requires at { at ≤ length source.now.tokens.now }
    requires depth { depth ≤ 128 }
    requires below { PartsAreBelow nodes.old }
    ensures reads { Reads (text_of source.now) (body (enumerator depth)) scopes.old at nodes.new scopes.new result }
    ensures placed { IfOk result (λ x. IsPlaced (length source.now.tokens.now) at nodes.old nodes.new [] x) }
{
    expect(source, at, Word::Identifier, depth)?;
    if !stands(source, at + 1, Word::Equal) {
        bring(alloc, source, at + 1, at, false, scopes)?;
        return leaf(alloc, nodes, Kind::Enumerator, at, at + 1);
    }
    let value = conditional(alloc, source, at + 1 + 1, depth, scopes, nodes)?;
    bring(alloc, source, value.next, at, false, scopes)?;
    over(alloc, nodes, Kind::Enumerator, at, value.next, value.node)
}
