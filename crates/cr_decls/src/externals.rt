//! External declarations (C11 6.9), one function a goal of the machine.

ghost use Rattle.std.specs.Prelude.{◌≡◌, ◌+◌, ◌<◌, ◌≤◌, ◌∷◌, [], IfOk, length, reverse};
ghost use Rattle.cr_syntax.specs.Kept.{PartsAreBelow, row_in};
ghost use Rattle.cr_syntax_machine.specs.Machine.{nowhere, unit, external};
ghost use Rattle.cr_syntax_machine.specs.MachineBody.{body, defined};
ghost use Rattle.cr_exprs_descent.specs.Source.{IsReadable, text_of};
ghost use Rattle.cr_exprs_descent.specs.Loose.{Replaces};
ghost use Rattle.cr_exprs_descent.specs.Answers.{Answers, Reads, IsPlaced, tree};

use crate::declarations::declarators;
use crate::ellipsis::own_ellipsis;
use crate::labels::Labels;
use crate::names::define;
use crate::start::stands_any;
use crate::statements::compound;
use cr_exprs_descent::{
    Found, ParseFault, Source, drop_scope, named_declarator, over, past, row_of, specifier_row,
    stands, triple,
};
use cr_rows::Row;
use cr_syntax::{FRESH, Kind, Node, OpenScopes, Word};
use std::alloc::Global;

/// External declarations up to the last token, one at least.
pub(crate) fn unit(
    alloc: Global,
    source: &Source,
    scopes: &mut OpenScopes,
    nodes: &mut Row<Node>,
) -> Result<Row<u32>, ParseFault>
    requires readable { IsReadable source.now }
    requires below { PartsAreBelow nodes.old }
    ensures reads { Answers (text_of source.now) (body (unit nowhere 0)) scopes.old 0 (λ x. row_in nodes.new x) scopes.new (λ x. length source.now.tokens.now) result }
    ensures below { IfOk result (λ x. PartsAreBelow nodes.new) }
    ensures kept { IfOk result (λ x. Replaces (length source.now.tokens.now) nodes.old nodes.new [] (reverse x)) }
{
    let first = external(alloc, source, 0, scopes, nodes)?;
    let mut items = row_of(alloc, first.node)?;
    let mut next = first.next;
    'externals: while stands_any(source, next) {
        let one = external(alloc, source, next, scopes, nodes)?;
        items.push(one.node)?;
        next = one.next;
    }
    Ok(items)
}

/// An external declaration.
fn external(
    alloc: Global,
    source: &Source,
    at: usize,
    scopes: &mut OpenScopes,
    nodes: &mut Row<Node>,
) -> Result<Found, ParseFault>
    requires readable { IsReadable source.now }
    requires at { at ≤ length source.now.tokens.now }
    requires below { PartsAreBelow nodes.old }
    ensures reads { Reads (text_of source.now) (body (external nowhere 0)) scopes.old at nodes.new scopes.new result }
    ensures placed { IfOk result (λ x. IsPlaced (length source.now.tokens.now) at nodes.old nodes.new [] x) }
{
    let specifiers = specifier_row(alloc, source, at, 0, scopes, nodes)?;
    if stands(source, specifiers.next, Word::Semicolon) {
        return over(
            alloc,
            nodes,
            Kind::Declaration,
            at,
            specifiers.next + 1,
            specifiers.node,
        );
    }
    let context = past(nodes, FRESH, specifiers.node);
    let first = named_declarator(alloc, source, context, specifiers.next, 0, scopes, nodes)?;
    if stands(source, first.next, Word::LeftBrace) {
        return defined(alloc, source, at, specifiers, first, scopes, nodes);
    }
    declarators(alloc, source, at, specifiers, first, 0, scopes, nodes)
}

/// The body of a function behind its specifiers and its declarator.
fn defined(
    alloc: Global,
    source: &Source,
    start: usize,
    specifiers: Found,
    declarator: Found,
    scopes: &mut OpenScopes,
    nodes: &mut Row<Node>,
) -> Result<Found, ParseFault>
    requires readable { IsReadable source.now }
    requires at { declarator.next ≤ length source.now.tokens.now }
    requires below { PartsAreBelow nodes.old }
    requires start { start < declarator.next }
    requires specifiers { specifiers.node < length nodes.old }
    requires node { declarator.node + 1 ≡ length nodes.old }
    ensures reads { Reads (text_of source.now) (defined nowhere 0 start (tree nodes.old specifiers.node) (tree nodes.old declarator.node)) scopes.old declarator.next nodes.new scopes.new result }
    ensures placed { IfOk result (λ x. IsPlaced (length source.now.tokens.now) start nodes.old nodes.new (declarator.node ∷ specifiers.node ∷ []) x) }
{
    if let Some(dots) = own_ellipsis(nodes, declarator.node) {
        return Err(ParseFault::OutsideSubset(dots, 8));
    }
    let context = past(nodes, FRESH, specifiers.node);
    define(alloc, source, context, declarator, scopes, nodes)?;
    let body = compound(
        alloc,
        source,
        Labels::InBlock,
        declarator.next,
        0,
        scopes,
        nodes,
    )?;
    drop_scope(scopes);
    triple(
        alloc,
        nodes,
        Kind::FunctionDefinition,
        start,
        body.next,
        specifiers.node,
        declarator.node,
        body.node,
    )
}
