//! Declarators with a name and without (C11 6.7.6, 6.7.7).

ghost use Rattle.std.specs.Prelude.{◌≡◌, ◌+◌, ◌<◌, ◌≤◌, ◌∷◌, [], true, false, IfOk, IfSome, IfNone, length, option_to_list, if◌then◌else◌};
ghost use Rattle.cr_syntax.specs.Scopes.{Scopes};
ghost use Rattle.cr_syntax.specs.Trees.{none};
ghost use Rattle.cr_syntax.specs.Kept.{PartsAreBelow, row_in};
ghost use Rattle.cr_syntax.specs.Reads.{is_word};
ghost use Rattle.cr_syntax_machine.specs.Machine.{passes, give, declarator, declarator_suffixes, abstract_suffixes, size, parameters, parameter};
ghost use Rattle.cr_syntax_machine.specs.MachineBody.{body, declarator_start, may_name, may_omit, is_declarator, array_start};
ghost use Rattle.cr_exprs_descent.specs.Source.{IsReadable, text_of};
ghost use Rattle.cr_exprs_descent.specs.Answers.{Answers, Reads, Lengthens, MayLengthen, IsPlaced, IsGrown, IsOptional, tree};
ghost use Rattle.cr_exprs_descent.specs.Parts.{wanted_of, EndsPointer, PointsOn};

use crate::arena::{
    gathered_parameters, is_declarator, leaf, over, over_optional, pair, pair_optional, past, push,
    row_of,
};
use crate::expressions::conditional;
use crate::fault::ParseFault;
use crate::found::{Found, Listed, Optional};
use crate::scopes::{enter_parameter, give_back, kept, taken};
use crate::source::{
    Source, expect, is_declared, qualifiers, refused, room, stands, starts_abstract,
    starts_declarator,
};
use crate::specifiers::row;
use cr_rows::Row;
use cr_syntax::{Context, FRESH, Kind, Node, OpenScopes, Part, Word, begin, past_token};
use std::alloc::Global;

/// Which declarators may come.
#[derive(Clone, Copy)]
pub(crate) enum Wanted {
    /// One with a name.
    Named,
    /// One without a name.
    Unnamed,
    /// Either.
    Either,
}

fn may_name(wanted: Wanted) -> bool
    ensures { result ≡ may_name (wanted_of wanted) }
{
    match wanted {
        Wanted::Unnamed => false,
        _ => true,
    }
}

fn may_omit(wanted: Wanted) -> bool
    ensures { result ≡ may_omit (wanted_of wanted) }
{
    match wanted {
        Wanted::Named => false,
        _ => true,
    }
}

/// Whether a declarator that may come begins here.
fn starts_wanted(source: &Source, wanted: Wanted, at: usize) -> bool
    requires { IsReadable source.now }
    ensures { (c : Scopes) → result ≡ passes (text_of source.now) c at (declarator_start (wanted_of wanted)) }
{
    match wanted {
        Wanted::Unnamed => starts_abstract(source, at),
        _ => starts_declarator(source, at),
    }
}

/// A declarator with a name or without.
#[cycle(grammar)]
pub(crate) fn declarator(
    alloc: Global,
    source: &Source,
    wanted: Wanted,
    context: Context,
    at: usize,
    depth: usize,
    scopes: &mut OpenScopes,
    nodes: &mut Row<Node>,
) -> Result<Found, ParseFault>
    requires readable { IsReadable source.now }
    requires at { at ≤ length source.now.tokens.now }
    requires depth { depth ≤ 128 }
    requires below { PartsAreBelow nodes.old }
    ensures reads { Reads (text_of source.now) (body (declarator (wanted_of wanted) context depth)) scopes.old at nodes.new scopes.new result }
    ensures placed { IfOk result (λ x. IsPlaced (length source.now.tokens.now) at nodes.old nodes.new [] x) }
{
    if stands(source, at, Word::Star) {
        return pointer(alloc, source, wanted, context, at, depth, scopes, nodes);
    }
    if stands(source, at, Word::LeftParen) {
        return bracketed(alloc, source, wanted, context, at, depth, scopes, nodes);
    }
    if !may_name(wanted) {
        return array_start(alloc, source, wanted, at, depth, scopes, nodes);
    }
    if !is_declared(source, at, context.typed, scopes) {
        return array_start(alloc, source, wanted, at, depth, scopes, nodes);
    }
    begin(alloc, scopes)?;
    let name = leaf(alloc, nodes, Kind::NameDeclarator, at, at + 1)?;
    declarator_suffixes(alloc, source, at, name, depth, scopes, nodes)
}

/// A `*` and what it points to.
#[cycle(grammar)]
fn pointer(
    alloc: Global,
    source: &Source,
    wanted: Wanted,
    context: Context,
    start: usize,
    depth: usize,
    scopes: &mut OpenScopes,
    nodes: &mut Row<Node>,
) -> Result<Found, ParseFault>
    requires readable { IsReadable source.now }
    requires at { start + 1 ≤ length source.now.tokens.now }
    requires depth { depth ≤ 128 }
    requires below { PartsAreBelow nodes.old }
    requires star { is_word (text_of source.now) start Word.Star ≡ true }
    ensures reads { Reads (text_of source.now) (body (declarator (wanted_of wanted) context depth)) scopes.old start nodes.new scopes.new result }
    ensures placed { IfOk result (λ x. IsPlaced (length source.now.tokens.now) start nodes.old nodes.new [] x) }
{
    room(start, depth)?;
    let next = qualifiers(source, start + 1);
    if ends_pointer(source, wanted, next) {
        return leaf(alloc, nodes, Kind::AbstractPointer, start, next);
    }
    let to = declarator(
        alloc,
        source,
        wanted,
        past_token(context),
        next,
        depth + 1,
        scopes,
        nodes,
    )?;
    let kind = pointer_kind(nodes, to.node);
    over(alloc, nodes, kind, start, to.next, to.node)
}

/// Whether a `*` points to nothing that is spelled.
fn ends_pointer(source: &Source, wanted: Wanted, at: usize) -> bool
    requires { IsReadable source.now }
    ensures ends { result ≡ true → EndsPointer (text_of source.now) (wanted_of wanted) at }
    ensures goes { result ≡ false → PointsOn (text_of source.now) (wanted_of wanted) at }
{
    may_omit(wanted) && !starts_wanted(source, wanted, at)
}

/// The kind of a `*` that points to this node.
fn pointer_kind(nodes: &Row<Node>, to: u32) -> Kind
    requires below { PartsAreBelow nodes.now }
    requires node { to < length nodes.now }
    ensures { result ≡ (if is_declarator (tree nodes.now to) then Kind.PointerDeclarator else Kind.AbstractPointer) }
{
    if is_declarator(nodes, to) {
        Kind::PointerDeclarator
    } else {
        Kind::AbstractPointer
    }
}

/// A declarator in brackets, and what stands behind it.
#[cycle(grammar)]
fn bracketed(
    alloc: Global,
    source: &Source,
    wanted: Wanted,
    context: Context,
    start: usize,
    depth: usize,
    scopes: &mut OpenScopes,
    nodes: &mut Row<Node>,
) -> Result<Found, ParseFault>
    requires readable { IsReadable source.now }
    requires at { start + 1 ≤ length source.now.tokens.now }
    requires depth { depth ≤ 128 }
    requires below { PartsAreBelow nodes.old }
    requires other { is_word (text_of source.now) start Word.Star ≡ false }
    requires bracket { is_word (text_of source.now) start Word.LeftParen ≡ true }
    ensures reads { Reads (text_of source.now) (body (declarator (wanted_of wanted) context depth)) scopes.old start nodes.new scopes.new result }
    ensures placed { IfOk result (λ x. IsPlaced (length source.now.tokens.now) start nodes.old nodes.new [] x) }
{
    room(start, depth)?;
    let inner = declarator(
        alloc,
        source,
        wanted,
        past_token(context),
        start + 1,
        depth + 1,
        scopes,
        nodes,
    )?;
    expect(source, inner.next, Word::RightParen, depth + 1)?;
    if is_declarator(nodes, inner.node) {
        let group = over(
            alloc,
            nodes,
            Kind::GroupDeclarator,
            start,
            inner.next + 1,
            inner.node,
        )?;
        return declarator_suffixes(alloc, source, start, group, depth, scopes, nodes);
    }
    let group = over(
        alloc,
        nodes,
        Kind::AbstractGroup,
        start,
        inner.next + 1,
        inner.node,
    )?;
    abstract_suffixes(alloc, source, start, group, depth, scopes, nodes)
}

/// A declarator without a name that begins with a `[`.
#[cycle(grammar)]
fn array_start(
    alloc: Global,
    source: &Source,
    wanted: Wanted,
    at: usize,
    depth: usize,
    scopes: &mut OpenScopes,
    nodes: &mut Row<Node>,
) -> Result<Found, ParseFault>
    requires readable { IsReadable source.now }
    requires at { at ≤ length source.now.tokens.now }
    requires depth { depth ≤ 128 }
    requires below { PartsAreBelow nodes.old }
    ensures reads { Reads (text_of source.now) (array_start (wanted_of wanted) depth at) scopes.old at nodes.new scopes.new result }
    ensures placed { IfOk result (λ x. IsPlaced (length source.now.tokens.now) at nodes.old nodes.new [] x) }
{
    if !may_omit(wanted) {
        return Err(refused(source, at, depth));
    }
    if !stands(source, at, Word::LeftBracket) {
        return Err(refused(source, at, depth));
    }
    room(at, depth)?;
    let size = size(alloc, source, at + 1, depth, scopes, nodes)?;
    let first = over_optional(alloc, nodes, Kind::AbstractArray, at, size)?;
    abstract_suffixes(alloc, source, at, first, depth, scopes, nodes)
}

/// What stands behind a declarator with a name that began at `start`.
#[cycle(grammar)]
fn declarator_suffixes(
    alloc: Global,
    source: &Source,
    start: usize,
    first: Found,
    depth: usize,
    scopes: &mut OpenScopes,
    nodes: &mut Row<Node>,
) -> Result<Found, ParseFault>
    requires readable { IsReadable source.now }
    requires at { first.next ≤ length source.now.tokens.now }
    requires depth { depth ≤ 128 }
    requires below { PartsAreBelow nodes.old }
    requires start { start < first.next }
    requires node { first.node + 1 ≡ length nodes.old }
    ensures reads { Reads (text_of source.now) (body (declarator_suffixes depth start (tree nodes.old first.node))) scopes.old first.next nodes.new scopes.new result }
    ensures grown { IfOk result (λ x. IsGrown (length source.now.tokens.now) start nodes.old nodes.new (first.node ∷ []) x) }
{
    let mut left = first;
    'suffixes: while let Some(longer) = declarator_suffix(
        alloc, source, start, left, depth, scopes, nodes,
    )? {
        left = longer;
    }
    Ok(left)
}

/// A declarator with one more suffix, if one stands behind it.
#[cycle(grammar)]
fn declarator_suffix(
    alloc: Global,
    source: &Source,
    start: usize,
    left: Found,
    depth: usize,
    scopes: &mut OpenScopes,
    nodes: &mut Row<Node>,
) -> Result<Option<Found>, ParseFault>
    requires readable { IsReadable source.now }
    requires at { left.next ≤ length source.now.tokens.now }
    requires depth { depth ≤ 128 }
    requires below { PartsAreBelow nodes.old }
    requires start { start < left.next }
    requires node { left.node + 1 ≡ length nodes.old }
    ensures reads { MayLengthen (text_of source.now) (λ t. body (declarator_suffixes depth start t)) (tree nodes.old left.node) (give (tree nodes.old left.node)) scopes.old left.next nodes.new scopes.new result }
    ensures placed { IfOk result (λ o. IfSome o (IsPlaced (length source.now.tokens.now) left.next nodes.old nodes.new (left.node ∷ []))) }
    ensures none { IfOk result (λ o. IfNone o ((nodes.new ≡ nodes.old) × (scopes.new ≡ scopes.old))) }
{
    if stands(source, left.next, Word::LeftBracket) {
        let longer = array(alloc, source, start, left, depth, scopes, nodes)?;
        return Ok(Some(longer));
    }
    if stands(source, left.next, Word::LeftParen) {
        let longer = function(alloc, source, start, left, depth, scopes, nodes)?;
        return Ok(Some(longer));
    }
    Ok(None)
}

/// A declarator of an array, whose size stands outside the declarator's own scope.
#[cycle(grammar)]
fn array(
    alloc: Global,
    source: &Source,
    start: usize,
    left: Found,
    depth: usize,
    scopes: &mut OpenScopes,
    nodes: &mut Row<Node>,
) -> Result<Found, ParseFault>
    requires readable { IsReadable source.now }
    requires at { left.next + 1 ≤ length source.now.tokens.now }
    requires depth { depth ≤ 128 }
    requires below { PartsAreBelow nodes.old }
    requires start { start < left.next }
    requires node { left.node + 1 ≡ length nodes.old }
    requires bracket { is_word (text_of source.now) left.next Word.LeftBracket ≡ true }
    ensures reads { Lengthens (text_of source.now) (λ t. body (declarator_suffixes depth start t)) (tree nodes.old left.node) scopes.old left.next nodes.new scopes.new result }
    ensures placed { IfOk result (λ x. IsPlaced (length source.now.tokens.now) left.next nodes.old nodes.new (left.node ∷ []) x) }
{
    room(left.next, depth)?;
    let own = taken(alloc, scopes);
    let size = size(alloc, source, left.next + 1, depth, scopes, nodes)?;
    give_back(scopes, own)?;
    pair_optional(alloc, nodes, Kind::ArrayDeclarator, start, left.node, size)
}

/// A declarator of a function.
#[cycle(grammar)]
fn function(
    alloc: Global,
    source: &Source,
    start: usize,
    left: Found,
    depth: usize,
    scopes: &mut OpenScopes,
    nodes: &mut Row<Node>,
) -> Result<Found, ParseFault>
    requires readable { IsReadable source.now }
    requires at { left.next + 1 ≤ length source.now.tokens.now }
    requires depth { depth ≤ 128 }
    requires below { PartsAreBelow nodes.old }
    requires start { start < left.next }
    requires node { left.node + 1 ≡ length nodes.old }
    requires other { is_word (text_of source.now) left.next Word.LeftBracket ≡ false }
    requires bracket { is_word (text_of source.now) left.next Word.LeftParen ≡ true }
    ensures reads { Lengthens (text_of source.now) (λ t. body (declarator_suffixes depth start t)) (tree nodes.old left.node) scopes.old left.next nodes.new scopes.new result }
    ensures placed { IfOk result (λ x. IsPlaced (length source.now.tokens.now) left.next nodes.old nodes.new (left.node ∷ []) x) }
{
    room(left.next, depth)?;
    if stands(source, left.next + 1, Word::RightParen) {
        return over(
            alloc,
            nodes,
            Kind::FunctionDeclarator,
            start,
            left.next + 1 + 1,
            left.node,
        );
    }
    let own = taken(alloc, scopes);
    begin(alloc, scopes)?;
    let list = parameters(alloc, source, left.next + 1, depth + 1, scopes, nodes)?;
    let names = taken(alloc, scopes);
    give_back(scopes, kept(nodes, left.node, names, own))?;
    expect(source, list.next, Word::RightParen, depth + 1)?;
    pair(
        alloc,
        nodes,
        Kind::FunctionDeclarator,
        start,
        list.next + 1,
        left.node,
        list.node,
    )
}

/// What stands behind an abstract array or group that began at `start`.
#[cycle(grammar)]
fn abstract_suffixes(
    alloc: Global,
    source: &Source,
    start: usize,
    first: Found,
    depth: usize,
    scopes: &mut OpenScopes,
    nodes: &mut Row<Node>,
) -> Result<Found, ParseFault>
    requires readable { IsReadable source.now }
    requires at { first.next ≤ length source.now.tokens.now }
    requires depth { depth ≤ 128 }
    requires below { PartsAreBelow nodes.old }
    requires start { start < first.next }
    requires node { first.node + 1 ≡ length nodes.old }
    ensures reads { Reads (text_of source.now) (body (abstract_suffixes depth start (tree nodes.old first.node))) scopes.old first.next nodes.new scopes.new result }
    ensures grown { IfOk result (λ x. IsGrown (length source.now.tokens.now) start nodes.old nodes.new (first.node ∷ []) x) }
{
    let mut left = first;
    'suffixes: while stands(source, left.next, Word::LeftBracket) {
        room(left.next, depth)?;
        let size = size(alloc, source, left.next + 1, depth, scopes, nodes)?;
        left = pair_optional(alloc, nodes, Kind::AbstractArrayOf, start, left.node, size)?;
    }
    Ok(left)
}

/// An array's size or none behind its `[`, and its `]`.
#[cycle(grammar)]
fn size(
    alloc: Global,
    source: &Source,
    at: usize,
    depth: usize,
    scopes: &mut OpenScopes,
    nodes: &mut Row<Node>,
) -> Result<Optional, ParseFault>
    requires readable { IsReadable source.now }
    requires at { at ≤ length source.now.tokens.now }
    requires depth { depth < 128 }
    requires below { PartsAreBelow nodes.old }
    ensures reads { Answers (text_of source.now) (body (size depth)) scopes.old at (λ x. row_in nodes.new (option_to_list x.node)) scopes.new (λ x. x.next) result }
    ensures placed { IfOk result (λ x. IsOptional (length source.now.tokens.now) at nodes.old nodes.new x) }
{
    if stands(source, at, Word::RightBracket) {
        return Ok(Optional {
            node: None,
            next: at + 1,
        });
    }
    let value = conditional(alloc, source, at, depth + 1, scopes, nodes)?;
    expect(source, value.next, Word::RightBracket, depth + 1)?;
    Ok(Optional {
        node: Some(value.node),
        next: value.next + 1,
    })
}

/// The parameters of a function.
#[cycle(grammar)]
fn parameters(
    alloc: Global,
    source: &Source,
    at: usize,
    depth: usize,
    scopes: &mut OpenScopes,
    nodes: &mut Row<Node>,
) -> Result<Found, ParseFault>
    requires readable { IsReadable source.now }
    requires at { at ≤ length source.now.tokens.now }
    requires depth { depth ≤ 128 }
    requires below { PartsAreBelow nodes.old }
    ensures reads { Reads (text_of source.now) (body (parameters depth)) scopes.old at nodes.new scopes.new result }
    ensures placed { IfOk result (λ x. IsPlaced (length source.now.tokens.now) at nodes.old nodes.new [] x) }
{
    let before = nodes.len();
    let first = parameter(alloc, source, at, depth, scopes, nodes)?;
    let mut parts = row_of(alloc, first.node)?;
    let mut next = first.next;
    'parameters: while stands(source, next, Word::Comma) {
        if stands(source, next + 1, Word::Ellipsis) {
            return push(nodes, Kind::VariadicParameters, at, next + 1 + 1, parts);
        }
        let more = parameter(alloc, source, next + 1, depth, scopes, nodes)?;
        parts.push(more.node)?;
        next = more.next;
    }
    gathered_parameters(alloc, nodes, before, at, Listed { parts, next })
}

/// A parameter.
#[cycle(grammar)]
fn parameter(
    alloc: Global,
    source: &Source,
    at: usize,
    depth: usize,
    scopes: &mut OpenScopes,
    nodes: &mut Row<Node>,
) -> Result<Found, ParseFault>
    requires readable { IsReadable source.now }
    requires at { at ≤ length source.now.tokens.now }
    requires depth { depth ≤ 128 }
    requires below { PartsAreBelow nodes.old }
    ensures reads { Reads (text_of source.now) (body (parameter depth)) scopes.old at nodes.new scopes.new result }
    ensures placed { IfOk result (λ x. IsPlaced (length source.now.tokens.now) at nodes.old nodes.new [] x) }
{
    let specifiers = row(alloc, source, Part::Specifiers, at, depth, scopes, nodes)?;
    if !starts_declarator(source, specifiers.next) {
        return Ok(specifiers);
    }
    let context = past(nodes, FRESH, specifiers.node);
    let rest = declarator(
        alloc,
        source,
        Wanted::Either,
        context,
        specifiers.next,
        depth,
        scopes,
        nodes,
    )?;
    enter_parameter(alloc, source, context, rest, scopes, nodes)?;
    pair(
        alloc,
        nodes,
        Kind::Parameter,
        at,
        rest.next,
        specifiers.node,
        rest.node,
    )
}
