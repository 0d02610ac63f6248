//! Unary and postfix expressions (C11 6.5.3, 6.5.2).

ghost use Rattle.std.specs.Prelude.{◌≡◌, ◌+◌, ◌<◌, ◌≤◌, ◌^◌, ◌∷◌, [], true, false, IfOk, IfErr, IfSome, IfNone, length};
ghost use Rattle.cr_syntax.specs.Words.{word_at};
ghost use Rattle.cr_syntax.specs.Scopes.{Scopes};
ghost use Rattle.cr_syntax.specs.Trees.{none, one, ◌&◌};
ghost use Rattle.cr_syntax.specs.Kept.{PartsAreBelow, row_in};
ghost use Rattle.cr_syntax.specs.Reads.{is_word};
ghost use Rattle.cr_syntax_machine.specs.Machine.{passes, plain, expect, unary, measured, postfix, called, grouped, arguments, suffixes};
ghost use Rattle.cr_syntax_machine.specs.MachineBody.{body, unary_prefixes, cast_prefixes, type_start, suffixed, suffixes_end};
ghost use Rattle.cr_exprs_descent.specs.Source.{IsReadable, text_of};
ghost use Rattle.cr_exprs_descent.specs.Tables.{kind_of};
ghost use Rattle.cr_exprs_descent.specs.Answers.{Answers, Reads, Lengthens, MayLengthen, Finishes, IsPushed, IsPlaced, IsGrown, IsListed, tree};

use crate::arena::{is_identifier, leaf, over, pair, push};
use crate::expressions::{assignment, cast, expression};
use crate::fault::ParseFault;
use crate::found::{Found, Listed};
use crate::source::{Source, bar, expect, is_ordinary, refused, room, stands, starts_plain, texts};
use crate::specifiers::type_name;
use crate::tables::{CAST_PREFIXES, CONSTANTS, POSTFIX, UNARY_PREFIXES, kind_in};
use cr_rows::Row;
use cr_syntax::{Kind, Node, OpenScopes, Word};
use std::alloc::Global;

/// A unary expression (6.5.3).
#[cycle(grammar)]
pub(crate) fn unary(
    alloc: Global,
    source: &Source,
    at: usize,
    depth: usize,
    scopes: &mut OpenScopes,
    nodes: &mut Row<Node>,
) -> Result<Found, ParseFault>
    requires readable { IsReadable source.now }
    requires at { at ≤ length source.now.tokens.now }
    requires depth { depth ≤ 128 }
    requires below { PartsAreBelow nodes.old }
    ensures reads { Reads (text_of source.now) (body (unary depth)) scopes.old at nodes.new scopes.new result }
    ensures placed { IfOk result (λ x. IsPlaced (length source.now.tokens.now) at nodes.old nodes.new [] x) }
{
    if let Some(kind) = kind_in(&UNARY_PREFIXES, source, at) {
        return stepped(alloc, source, kind, at, depth, scopes, nodes);
    }
    if let Some(kind) = kind_in(&CAST_PREFIXES, source, at) {
        return prefixed(alloc, source, kind, at, depth, scopes, nodes);
    }
    if !stands(source, at, Word::Sizeof) {
        return postfix(alloc, source, at, depth, scopes, nodes);
    }
    room(at, depth)?;
    measured(alloc, source, at, depth, scopes, nodes)
}

/// A unary expression behind `++` or `--`.
#[cycle(grammar)]
fn stepped(
    alloc: Global,
    source: &Source,
    kind: Kind,
    start: usize,
    depth: usize,
    scopes: &mut OpenScopes,
    nodes: &mut Row<Node>,
) -> Result<Found, ParseFault>
    requires readable { IsReadable source.now }
    requires at { start + 1 ≤ length source.now.tokens.now }
    requires depth { depth ≤ 128 }
    requires below { PartsAreBelow nodes.old }
    requires kind { kind_of unary_prefixes (word_at (text_of source.now) start) ≡ Some kind }
    ensures reads { Reads (text_of source.now) (body (unary depth)) scopes.old start nodes.new scopes.new result }
    ensures placed { IfOk result (λ x. IsPlaced (length source.now.tokens.now) start nodes.old nodes.new [] x) }
{
    room(start, depth)?;
    let operand = unary(alloc, source, start + 1, depth + 1, scopes, nodes)?;
    over(alloc, nodes, kind, start, operand.next, operand.node)
}

/// A cast behind another prefix operator.
#[cycle(grammar)]
fn prefixed(
    alloc: Global,
    source: &Source,
    kind: Kind,
    start: usize,
    depth: usize,
    scopes: &mut OpenScopes,
    nodes: &mut Row<Node>,
) -> Result<Found, ParseFault>
    requires readable { IsReadable source.now }
    requires at { start + 1 ≤ length source.now.tokens.now }
    requires depth { depth ≤ 128 }
    requires below { PartsAreBelow nodes.old }
    requires other { kind_of unary_prefixes (word_at (text_of source.now) start) ≡ None }
    requires kind { kind_of cast_prefixes (word_at (text_of source.now) start) ≡ Some kind }
    ensures reads { Reads (text_of source.now) (body (unary depth)) scopes.old start nodes.new scopes.new result }
    ensures placed { IfOk result (λ x. IsPlaced (length source.now.tokens.now) start nodes.old nodes.new [] x) }
{
    room(start, depth)?;
    let operand = cast(alloc, source, start + 1, depth + 1, scopes, nodes)?;
    over(alloc, nodes, kind, start, operand.next, operand.node)
}

/// What stands behind `sizeof`.
#[cycle(grammar)]
fn measured(
    alloc: Global,
    source: &Source,
    start: usize,
    depth: usize,
    scopes: &mut OpenScopes,
    nodes: &mut Row<Node>,
) -> Result<Found, ParseFault>
    requires readable { IsReadable source.now }
    requires at { start + 1 ≤ length source.now.tokens.now }
    requires depth { depth < 128 }
    requires below { PartsAreBelow nodes.old }
    ensures reads { Reads (text_of source.now) (body (measured depth start)) scopes.old (start + 1) nodes.new scopes.new result }
    ensures placed { IfOk result (λ x. IsPlaced (length source.now.tokens.now) start nodes.old nodes.new [] x) }
{
    if !stands(source, start + 1, Word::LeftParen) {
        let operand = unary(alloc, source, start + 1, depth + 1, scopes, nodes)?;
        return sized(alloc, nodes, start, operand);
    }
    room(start + 1, depth + 1)?;
    if starts_plain(source, start + 1 + 1, false, scopes) {
        return measured_type(alloc, source, start, depth, scopes, nodes);
    }
    let operand = grouped(
        alloc,
        source,
        start + 1,
        start + 1 + 1,
        depth + 1,
        scopes,
        nodes,
    )?;
    sized(alloc, nodes, start, operand)
}

/// The node of `sizeof` and an expression.
fn sized(
    alloc: Global,
    nodes: &mut Row<Node>,
    start: usize,
    operand: Found,
) -> Result<Found, ParseFault>
    requires below { PartsAreBelow nodes.old }
    requires part { operand.node < length nodes.old }
    requires first { start < operand.next }
    requires next { operand.next < 2 ^ 32 }
    ensures ok { IfOk result (λ x. IsPushed nodes.old nodes.new (operand.node ∷ []) x) }
    ensures next { IfOk result (λ x. x.next ≡ operand.next) }
    ensures tree { IfOk result (λ x. tree nodes.new x.node ≡ one Kind.SizeofExpression start operand.next (tree nodes.old operand.node & none)) }
    ensures err { IfErr result (λ fault. fault ≡ ParseFault.NoMemory) }
{
    over(
        alloc,
        nodes,
        Kind::SizeofExpression,
        start,
        operand.next,
        operand.node,
    )
}

/// What stands behind `sizeof` and its `(`, where a type name begins.
#[cycle(grammar)]
fn measured_type(
    alloc: Global,
    source: &Source,
    start: usize,
    depth: usize,
    scopes: &mut OpenScopes,
    nodes: &mut Row<Node>,
) -> Result<Found, ParseFault>
    requires readable { IsReadable source.now }
    requires at { start + 1 + 1 ≤ length source.now.tokens.now }
    requires depth { depth + 1 < 128 }
    requires below { PartsAreBelow nodes.old }
    requires bracket { is_word (text_of source.now) (start + 1) Word.LeftParen ≡ true }
    requires starts { passes (text_of source.now) scopes.old (start + 1 + 1) type_start ≡ true }
    ensures reads { Reads (text_of source.now) (body (measured depth start)) scopes.old (start + 1) nodes.new scopes.new result }
    ensures placed { IfOk result (λ x. IsPlaced (length source.now.tokens.now) start nodes.old nodes.new [] x) }
{
    let named = type_name(alloc, source, start + 1 + 1, depth + 1 + 1, scopes, nodes)?;
    expect(source, named.next, Word::RightParen, depth + 1 + 1)?;
    over(
        alloc,
        nodes,
        Kind::SizeofType,
        start,
        named.next + 1,
        named.node,
    )
}

/// A postfix expression (6.5.2, 6.5.1).
#[cycle(grammar)]
fn postfix(
    alloc: Global,
    source: &Source,
    at: usize,
    depth: usize,
    scopes: &mut OpenScopes,
    nodes: &mut Row<Node>,
) -> Result<Found, ParseFault>
    requires readable { IsReadable source.now }
    requires at { at ≤ length source.now.tokens.now }
    requires depth { depth ≤ 128 }
    requires below { PartsAreBelow nodes.old }
    ensures reads { Reads (text_of source.now) (body (postfix depth)) scopes.old at nodes.new scopes.new result }
    ensures placed { IfOk result (λ x. IsPlaced (length source.now.tokens.now) at nodes.old nodes.new [] x) }
{
    if is_ordinary(source, at, scopes) {
        return called(alloc, source, at, depth, scopes, nodes);
    }
    if let Some(kind) = kind_in(&CONSTANTS, source, at) {
        let first = leaf(alloc, nodes, kind, at, at + 1)?;
        return suffixes(alloc, source, at, first, depth, scopes, nodes);
    }
    if stands(source, at, Word::Text) {
        let first = leaf(alloc, nodes, Kind::Text, at, texts(source, at + 1))?;
        return suffixes(alloc, source, at, first, depth, scopes, nodes);
    }
    if !stands(source, at, Word::LeftParen) {
        return Err(refused(source, at, depth));
    }
    room(at, depth)?;
    grouped(alloc, source, at, at + 1, depth, scopes, nodes)
}

/// What stands behind an identifier that is no type.
#[cycle(grammar)]
fn called(
    alloc: Global,
    source: &Source,
    start: usize,
    depth: usize,
    scopes: &mut OpenScopes,
    nodes: &mut Row<Node>,
) -> Result<Found, ParseFault>
    requires readable { IsReadable source.now }
    requires at { start + 1 ≤ length source.now.tokens.now }
    requires depth { depth ≤ 128 }
    requires below { PartsAreBelow nodes.old }
    ensures reads { Reads (text_of source.now) (body (called depth start)) scopes.old (start + 1) nodes.new scopes.new result }
    ensures placed { IfOk result (λ x. IsPlaced (length source.now.tokens.now) start nodes.old nodes.new [] x) }
{
    if !stands(source, start + 1, Word::LeftParen) {
        let first = leaf(alloc, nodes, Kind::Identifier, start, start + 1)?;
        return suffixes(alloc, source, start, first, depth, scopes, nodes);
    }
    room(start + 1, depth)?;
    if stands(source, start + 1 + 1, Word::RightParen) {
        let first = leaf(alloc, nodes, Kind::Call, start, start + 1 + 1 + 1)?;
        return suffixes(alloc, source, start, first, depth, scopes, nodes);
    }
    let list = arguments(alloc, source, start + 1 + 1, depth, scopes, nodes)?;
    let first = push(nodes, Kind::Call, start, list.next, list.parts)?;
    suffixes(alloc, source, start, first, depth, scopes, nodes)
}

/// The arguments of a call, and its `)`.
#[cycle(grammar)]
fn arguments(
    alloc: Global,
    source: &Source,
    at: usize,
    depth: usize,
    scopes: &mut OpenScopes,
    nodes: &mut Row<Node>,
) -> Result<Listed, ParseFault>
    requires readable { IsReadable source.now }
    requires at { at ≤ length source.now.tokens.now }
    requires depth { depth < 128 }
    requires below { PartsAreBelow nodes.old }
    ensures reads { Answers (text_of source.now) (body (arguments depth none)) scopes.old at (λ x. row_in nodes.new x.parts) scopes.new (λ x. x.next) result }
    ensures listed { IfOk result (λ x. IsListed (length source.now.tokens.now) at nodes.old nodes.new x) }
{
    let mut parts = Row::new(alloc);
    let mut next = at;
    'arguments: loop {
        let argument = assignment(alloc, source, next, depth + 1, scopes, nodes)?;
        parts.push(argument.node)?;
        next = argument.next + 1;
        if !stands(source, argument.next, Word::Comma) {
            expect(source, argument.next, Word::RightParen, depth + 1)?;
            return Ok(Listed { parts, next });
        }
    }
}

/// A parenthesised expression behind its `(`, and what stands behind its `)`.
#[cycle(grammar)]
pub(crate) fn grouped(
    alloc: Global,
    source: &Source,
    start: usize,
    at: usize,
    depth: usize,
    scopes: &mut OpenScopes,
    nodes: &mut Row<Node>,
) -> Result<Found, ParseFault>
    requires readable { IsReadable source.now }
    requires at { at ≤ length source.now.tokens.now }
    requires depth { depth < 128 }
    requires below { PartsAreBelow nodes.old }
    requires start { start < at }
    ensures reads { Reads (text_of source.now) (body (grouped depth start)) scopes.old at nodes.new scopes.new result }
    ensures placed { IfOk result (λ x. IsPlaced (length source.now.tokens.now) start nodes.old nodes.new [] x) }
{
    let inner = expression(alloc, source, at, depth + 1, scopes, nodes)?;
    expect(source, inner.next, Word::RightParen, depth + 1)?;
    let first = over(alloc, nodes, Kind::Group, start, inner.next + 1, inner.node)?;
    suffixes(alloc, source, start, first, depth, scopes, nodes)
}

/// What stands behind a postfix expression that began at `start`.
#[cycle(grammar)]
fn suffixes(
    alloc: Global,
    source: &Source,
    start: usize,
    first: Found,
    depth: usize,
    scopes: &mut OpenScopes,
    nodes: &mut Row<Node>,
) -> Result<Found, ParseFault>
    requires readable { IsReadable source.now }
    requires at { first.next ≤ length source.now.tokens.now }
    requires depth { depth ≤ 128 }
    requires below { PartsAreBelow nodes.old }
    requires start { start < first.next }
    requires node { first.node + 1 ≡ length nodes.old }
    ensures reads { Reads (text_of source.now) (body (suffixes depth start (tree nodes.old first.node))) scopes.old first.next nodes.new scopes.new result }
    ensures grown { IfOk result (λ x. IsGrown (length source.now.tokens.now) start nodes.old nodes.new (first.node ∷ []) x) }
{
    let mut left = first;
    'suffixes: while let Some(longer) = suffix(alloc, source, start, left, depth, scopes, nodes)? {
        left = longer;
    }
    if is_identifier(nodes, left.node) {
        return Ok(left);
    }
    bar(source, left.next, Word::LeftParen, 4, depth)?;
    Ok(left)
}

/// A postfix expression with one more suffix, if one stands behind it.
#[cycle(grammar)]
fn suffix(
    alloc: Global,
    source: &Source,
    start: usize,
    left: Found,
    depth: usize,
    scopes: &mut OpenScopes,
    nodes: &mut Row<Node>,
) -> Result<Option<Found>, ParseFault>
    requires readable { IsReadable source.now }
    requires at { left.next ≤ length source.now.tokens.now }
    requires depth { depth ≤ 128 }
    requires below { PartsAreBelow nodes.old }
    requires start { start < left.next }
    requires node { left.node + 1 ≡ length nodes.old }
    ensures reads { MayLengthen (text_of source.now) (λ t. body (suffixes depth start t)) (tree nodes.old left.node) (suffixes_end depth (tree nodes.old left.node)) scopes.old left.next nodes.new scopes.new result }
    ensures placed { IfOk result (λ o. IfSome o (IsPlaced (length source.now.tokens.now) left.next nodes.old nodes.new (left.node ∷ []))) }
    ensures none { IfOk result (λ o. IfNone o ((nodes.new ≡ nodes.old) × (scopes.new ≡ scopes.old))) }
{
    if stands(source, left.next, Word::LeftBracket) {
        let longer = subscript(alloc, source, start, left, depth, scopes, nodes)?;
        return Ok(Some(longer));
    }
    plain_suffix(alloc, source, start, left, depth, nodes)
}

/// A postfix expression with a suffix of tokens alone, if one stands behind it.
fn plain_suffix(
    alloc: Global,
    source: &Source,
    start: usize,
    left: Found,
    depth: usize,
    nodes: &mut Row<Node>,
) -> Result<Option<Found>, ParseFault>
    requires readable { IsReadable source.now }
    requires at { left.next ≤ length source.now.tokens.now }
    requires below { PartsAreBelow nodes.old }
    requires start { start < left.next }
    requires node { left.node + 1 ≡ length nodes.old }
    requires other { is_word (text_of source.now) left.next Word.LeftBracket ≡ false }
    ensures reads { (c : Scopes) → MayLengthen (text_of source.now) (λ t. body (suffixes depth start t)) (tree nodes.old left.node) (suffixes_end depth (tree nodes.old left.node)) c left.next nodes.new c result }
    ensures placed { IfOk result (λ o. IfSome o (IsPlaced (length source.now.tokens.now) left.next nodes.old nodes.new (left.node ∷ []))) }
    ensures none { IfOk result (λ o. IfNone o (nodes.new ≡ nodes.old)) }
{
    if stands(source, left.next, Word::Dot) {
        let longer = member(alloc, source, Kind::Member, start, left, depth, nodes)?;
        return Ok(Some(longer));
    }
    if stands(source, left.next, Word::Arrow) {
        let longer = member(
            alloc,
            source,
            Kind::PointerMember,
            start,
            left,
            depth,
            nodes,
        )?;
        return Ok(Some(longer));
    }
    let Some(kind) = kind_in(&POSTFIX, source, left.next) else {
        return Ok(None);
    };
    let longer = over(alloc, nodes, kind, start, left.next + 1, left.node)?;
    Ok(Some(longer))
}

/// A postfix expression and a member behind its `.` or `->`.
fn member(
    alloc: Global,
    source: &Source,
    kind: Kind,
    start: usize,
    left: Found,
    depth: usize,
    nodes: &mut Row<Node>,
) -> Result<Found, ParseFault>
    requires readable { IsReadable source.now }
    requires at { left.next + 1 ≤ length source.now.tokens.now }
    requires below { PartsAreBelow nodes.old }
    requires start { start < left.next }
    requires node { left.node + 1 ≡ length nodes.old }
    ensures reads { (c : Scopes) → Finishes (text_of source.now) (expect plain Word.Identifier depth (suffixed depth start (tree nodes.old left.node & none) kind)) (λ t. body (suffixes depth start t)) c (left.next + 1) nodes.new result }
    ensures placed { IfOk result (λ x. IsPlaced (length source.now.tokens.now) left.next nodes.old nodes.new (left.node ∷ []) x) }
{
    expect(source, left.next + 1, Word::Identifier, depth)?;
    over(alloc, nodes, kind, start, left.next + 1 + 1, left.node)
}

/// A postfix expression and a subscript.
#[cycle(grammar)]
fn subscript(
    alloc: Global,
    source: &Source,
    start: usize,
    left: Found,
    depth: usize,
    scopes: &mut OpenScopes,
    nodes: &mut Row<Node>,
) -> Result<Found, ParseFault>
    requires readable { IsReadable source.now }
    requires at { left.next + 1 ≤ length source.now.tokens.now }
    requires depth { depth ≤ 128 }
    requires below { PartsAreBelow nodes.old }
    requires start { start < left.next }
    requires node { left.node + 1 ≡ length nodes.old }
    requires bracket { is_word (text_of source.now) left.next Word.LeftBracket ≡ true }
    ensures reads { Lengthens (text_of source.now) (λ t. body (suffixes depth start t)) (tree nodes.old left.node) scopes.old left.next nodes.new scopes.new result }
    ensures placed { IfOk result (λ x. IsPlaced (length source.now.tokens.now) left.next nodes.old nodes.new (left.node ∷ []) x) }
{
    room(left.next, depth)?;
    let inner = expression(alloc, source, left.next + 1, depth + 1, scopes, nodes)?;
    expect(source, inner.next, Word::RightBracket, depth + 1)?;
    pair(
        alloc,
        nodes,
        Kind::Subscript,
        start,
        inner.next + 1,
        left.node,
        inner.node,
    )
}
