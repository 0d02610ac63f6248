//! What stands between the brackets of statements (C11 6.8.4, 6.8.5).

ghost use Rattle.std.specs.Prelude.{◌≡◌, ◌+◌, ◌<◌, ◌≤◌, ◌∷◌, ◌++◌, [], IfOk, IfErr, OnOk, length, option_to_list};
ghost use Rattle.cr_syntax.specs.Trees.{Trees};
ghost use Rattle.cr_syntax.specs.Kept.{PartsAreBelow, row_in};
ghost use Rattle.cr_syntax_machine.specs.Machine.{Prog, clause};
ghost use Rattle.cr_syntax_machine.specs.MachineBody.{body};
ghost use Rattle.cr_exprs_descent.specs.Source.{IsReadable, text_of};
ghost use Rattle.cr_exprs_descent.specs.Answers.{Answers, Comes, Goes, IsPlaced, IsOptional, tree};
ghost use Rattle.cr_decls.specs.Programs.{controlling, repeated, first_clause, last_clause, with_step};

use crate::declarations::declaration;
use cr_exprs_descent::{
    Found, Goal, Optional, ParseFault, Source, expect, read, room, stands, starts_specifier,
};
use cr_rows::Row;
use cr_syntax::{Node, OpenScopes, Word, begin};
use std::alloc::{AllocError, Global};

/// The controlling expression of a statement in its brackets, where the scope of the statement begins. The token after is
/// that behind the `)`.
pub(crate) fn controlling(
    alloc: Global,
    source: &Source,
    at: usize,
    depth: usize,
    scopes: &mut OpenScopes,
    nodes: &mut Row<Node>,
) -> Result<Found, ParseFault>
    requires readable { IsReadable source.now }
    requires at { at ≤ length source.now.tokens.now }
    requires depth { depth ≤ 128 }
    requires below { PartsAreBelow nodes.old }
    ensures reads { (f : Trees → Prog) → Comes (text_of source.now) (controlling depth f) scopes.old at (λ x. Goes (text_of source.now) (controlling depth f) scopes.old at (f (tree nodes.new x.node)) scopes.new x.next) result }
    ensures room { OnOk result (depth < 128) }
    ensures placed { IfOk result (λ x. IsPlaced (length source.now.tokens.now) at nodes.old nodes.new [] x) }
{
    begin(alloc, scopes)?;
    expect(source, at, Word::LeftParen, depth)?;
    room(at, depth)?;
    let test = read(
        alloc,
        source,
        Goal::Expression,
        at + 1,
        depth + 1,
        scopes,
        nodes,
    )?;
    expect(source, test.next, Word::RightParen, depth + 1)?;
    Ok(Found {
        node: test.node,
        next: test.next + 1,
    })
}

/// The controlling expression of a `do` in its brackets, and the `;`.
pub(crate) fn repeated(
    alloc: Global,
    source: &Source,
    at: usize,
    depth: usize,
    scopes: &mut OpenScopes,
    nodes: &mut Row<Node>,
) -> Result<Found, ParseFault>
    requires readable { IsReadable source.now }
    requires at { at ≤ length source.now.tokens.now }
    requires depth { depth < 128 }
    requires below { PartsAreBelow nodes.old }
    ensures reads { (f : Trees → Prog) → Comes (text_of source.now) (repeated depth f) scopes.old at (λ x. Goes (text_of source.now) (repeated depth f) scopes.old at (f (tree nodes.new x.node)) scopes.new x.next) result }
    ensures placed { IfOk result (λ x. IsPlaced (length source.now.tokens.now) at nodes.old nodes.new [] x) }
{
    expect(source, at, Word::LeftParen, depth)?;
    let test = read(
        alloc,
        source,
        Goal::Expression,
        at + 1,
        depth + 1,
        scopes,
        nodes,
    )?;
    expect(source, test.next, Word::RightParen, depth + 1)?;
    expect(source, test.next + 1, Word::Semicolon, depth)?;
    Ok(Found {
        node: test.node,
        next: test.next + 1 + 1,
    })
}

/// The first clause of a `for`, a declaration, an expression or nothing, with its `;`.
pub(crate) fn first_clause(
    alloc: Global,
    source: &Source,
    at: usize,
    depth: usize,
    scopes: &mut OpenScopes,
    nodes: &mut Row<Node>,
) -> Result<Optional, ParseFault>
    requires readable { IsReadable source.now }
    requires at { at ≤ length source.now.tokens.now }
    requires depth { depth < 128 }
    requires below { PartsAreBelow nodes.old }
    ensures reads { (f : Trees → Prog) → Comes (text_of source.now) (first_clause depth f) scopes.old at (λ x. Goes (text_of source.now) (first_clause depth f) scopes.old at (f (row_in nodes.new (option_to_list x.node))) scopes.new x.next) result }
    ensures placed { IfOk result (λ x. IsOptional (length source.now.tokens.now) at nodes.old nodes.new x) }
{
    if !starts_specifier(source, at, false, scopes) {
        return clause(alloc, source, at, depth + 1, scopes, nodes);
    }
    let first = declaration(alloc, source, at, depth + 1, scopes, nodes)?;
    Ok(Optional {
        node: Some(first.node),
        next: first.next,
    })
}

/// An expression or nothing, and a `;`.
pub(crate) fn clause(
    alloc: Global,
    source: &Source,
    at: usize,
    depth: usize,
    scopes: &mut OpenScopes,
    nodes: &mut Row<Node>,
) -> Result<Optional, ParseFault>
    requires readable { IsReadable source.now }
    requires at { at ≤ length source.now.tokens.now }
    requires depth { depth ≤ 128 }
    requires below { PartsAreBelow nodes.old }
    ensures reads { Answers (text_of source.now) (body (clause depth)) scopes.old at (λ x. row_in nodes.new (option_to_list x.node)) scopes.new (λ x. x.next) result }
    ensures placed { IfOk result (λ x. IsOptional (length source.now.tokens.now) at nodes.old nodes.new x) }
{
    if stands(source, at, Word::Semicolon) {
        return Ok(Optional {
            node: None,
            next: at + 1,
        });
    }
    let value = read(alloc, source, Goal::Expression, at, depth, scopes, nodes)?;
    expect(source, value.next, Word::Semicolon, depth)?;
    Ok(Optional {
        node: Some(value.node),
        next: value.next + 1,
    })
}

/// The last clause of a `for`, an expression or nothing, with its `)`.
pub(crate) fn last_clause(
    alloc: Global,
    source: &Source,
    at: usize,
    depth: usize,
    scopes: &mut OpenScopes,
    nodes: &mut Row<Node>,
) -> Result<Optional, ParseFault>
    requires readable { IsReadable source.now }
    requires at { at ≤ length source.now.tokens.now }
    requires depth { depth < 128 }
    requires below { PartsAreBelow nodes.old }
    ensures reads { (p : Prog) (f : Trees → Prog) → Comes (text_of source.now) (last_clause depth p f) scopes.old at (λ x. Goes (text_of source.now) (last_clause depth p f) scopes.old at (with_step p f nodes.new x.node) scopes.new x.next) result }
    ensures placed { IfOk result (λ x. IsOptional (length source.now.tokens.now) at nodes.old nodes.new x) }
{
    if stands(source, at, Word::RightParen) {
        return Ok(Optional {
            node: None,
            next: at + 1,
        });
    }
    let step = read(
        alloc,
        source,
        Goal::Expression,
        at,
        depth + 1,
        scopes,
        nodes,
    )?;
    expect(source, step.next, Word::RightParen, depth + 1)?;
    Ok(Optional {
        node: Some(step.node),
        next: step.next + 1,
    })
}

/// The parts of a `for`, in order.
pub(crate) fn loop_parts(
    alloc: Global,
    first: Option<u32>,
    test: Option<u32>,
    step: Option<u32>,
    body: u32,
) -> Result<Row<u32>, ParseFault>
    ensures ok { IfOk result (λ parts. parts ≡ option_to_list first ++ option_to_list test ++ option_to_list step ++ body ∷ []) }
    ensures err { IfErr result (λ fault. fault ≡ ParseFault.NoMemory) }
{
    let mut parts = Row::new(alloc);
    push_optional(&mut parts, first)?;
    push_optional(&mut parts, test)?;
    push_optional(&mut parts, step)?;
    parts.push(body)?;
    Ok(parts)
}

fn push_optional(parts: &mut Row<u32>, part: Option<u32>) -> Result<(), AllocError>
    ensures { OnOk result (parts.new ≡ parts.old ++ option_to_list part) }
{
    if let Some(node) = part {
        parts.push(node)?;
    }
    Ok(())
}
