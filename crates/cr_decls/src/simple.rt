//! Statements without other statements in them: jumps and expressions (C11 6.8.3, 6.8.6).

ghost use Rattle.std.specs.Prelude.{◌≡◌, ◌+◌, ◌<◌, ◌≤◌, [], IfOk, length};
ghost use Rattle.cr_syntax.specs.Scopes.{Scopes};
ghost use Rattle.cr_syntax.specs.Trees.{none};
ghost use Rattle.cr_syntax.specs.Kept.{PartsAreBelow};
ghost use Rattle.cr_syntax_machine.specs.Machine.{plain, expect, made, return_rest};
ghost use Rattle.cr_syntax_machine.specs.MachineBody.{body};
ghost use Rattle.cr_exprs_descent.specs.Source.{IsReadable, text_of};
ghost use Rattle.cr_exprs_descent.specs.Answers.{Reads, IsPlaced, tree};
ghost use Rattle.cr_decls.specs.Programs.{simple, expression_statement, goto_rest};

use cr_exprs_descent::{
    Found, Goal, ParseFault, Source, expect, is_type_identifier, leaf, over, read, refused, stands,
};
use cr_rows::Row;
use cr_syntax::{Kind, Node, OpenScopes, Word};
use std::alloc::Global;

/// A statement without another one in it, a jump or an expression (6.8.3, 6.8.6).
pub(crate) fn simple(
    alloc: Global,
    source: &Source,
    at: usize,
    depth: usize,
    scopes: &mut OpenScopes,
    nodes: &mut Row<Node>,
) -> Result<Found, ParseFault>
    requires readable { IsReadable source.now }
    requires at { at ≤ length source.now.tokens.now }
    requires depth { depth ≤ 128 }
    requires below { PartsAreBelow nodes.old }
    ensures reads { Reads (text_of source.now) (simple depth at) scopes.old at nodes.new scopes.new result }
    ensures placed { IfOk result (λ x. IsPlaced (length source.now.tokens.now) at nodes.old nodes.new [] x) }
{
    if stands(source, at, Word::Goto) {
        return goto_rest(alloc, source, at, depth, nodes);
    }
    if stands(source, at, Word::Break) {
        return jump(alloc, source, Kind::Break, at, depth, nodes);
    }
    if stands(source, at, Word::Continue) {
        return jump(alloc, source, Kind::Continue, at, depth, nodes);
    }
    if stands(source, at, Word::Return) {
        return return_rest(alloc, source, at, depth, scopes, nodes);
    }
    if stands(source, at, Word::Semicolon) {
        return leaf(alloc, nodes, Kind::ExpressionStatement, at, at + 1);
    }
    expression_statement(alloc, source, at, depth, scopes, nodes)
}

/// An expression and its `;` (6.8.3). A typedef name begins none, and labels nothing here.
fn expression_statement(
    alloc: Global,
    source: &Source,
    at: usize,
    depth: usize,
    scopes: &mut OpenScopes,
    nodes: &mut Row<Node>,
) -> Result<Found, ParseFault>
    requires readable { IsReadable source.now }
    requires at { at ≤ length source.now.tokens.now }
    requires depth { depth ≤ 128 }
    requires below { PartsAreBelow nodes.old }
    ensures reads { Reads (text_of source.now) (expression_statement depth at) scopes.old at nodes.new scopes.new result }
    ensures placed { IfOk result (λ x. IsPlaced (length source.now.tokens.now) at nodes.old nodes.new [] x) }
{
    if is_type_identifier(source, at, false, scopes) {
        return Err(refused(source, at + 1, depth));
    }
    let value = read(alloc, source, Goal::Expression, at, depth, scopes, nodes)?;
    expect(source, value.next, Word::Semicolon, depth)?;
    over(
        alloc,
        nodes,
        Kind::ExpressionStatement,
        at,
        value.next + 1,
        value.node,
    )
}

/// What stands behind `goto` (6.8.6.1).
fn goto_rest(
    alloc: Global,
    source: &Source,
    start: usize,
    depth: usize,
    nodes: &mut Row<Node>,
) -> Result<Found, ParseFault>
    requires readable { IsReadable source.now }
    requires at { start + 1 ≤ length source.now.tokens.now }
    requires below { PartsAreBelow nodes.old }
    ensures reads { (c : Scopes) → Reads (text_of source.now) (goto_rest depth start) c (start + 1) nodes.new c result }
    ensures placed { IfOk result (λ x. IsPlaced (length source.now.tokens.now) start nodes.old nodes.new [] x) }
{
    expect(source, start + 1, Word::Identifier, depth)?;
    expect(source, start + 1 + 1, Word::Semicolon, depth)?;
    leaf(alloc, nodes, Kind::Goto, start, start + 1 + 1 + 1)
}

/// What stands behind `return` (6.8.6.4).
fn return_rest(
    alloc: Global,
    source: &Source,
    start: usize,
    depth: usize,
    scopes: &mut OpenScopes,
    nodes: &mut Row<Node>,
) -> Result<Found, ParseFault>
    requires readable { IsReadable source.now }
    requires at { start + 1 ≤ length source.now.tokens.now }
    requires depth { depth ≤ 128 }
    requires below { PartsAreBelow nodes.old }
    ensures reads { Reads (text_of source.now) (body (return_rest depth start)) scopes.old (start + 1) nodes.new scopes.new result }
    ensures placed { IfOk result (λ x. IsPlaced (length source.now.tokens.now) start nodes.old nodes.new [] x) }
{
    if stands(source, start + 1, Word::Semicolon) {
        return leaf(alloc, nodes, Kind::Return, start, start + 1 + 1);
    }
    let value = read(
        alloc,
        source,
        Goal::Expression,
        start + 1,
        depth,
        scopes,
        nodes,
    )?;
    expect(source, value.next, Word::Semicolon, depth)?;
    over(
        alloc,
        nodes,
        Kind::Return,
        start,
        value.next + 1,
        value.node,
    )
}

/// The `;` behind a keyword that is a statement of this kind by itself.
fn jump(
    alloc: Global,
    source: &Source,
    kind: Kind,
    start: usize,
    depth: usize,
    nodes: &mut Row<Node>,
) -> Result<Found, ParseFault>
    requires readable { IsReadable source.now }
    requires at { start + 1 ≤ length source.now.tokens.now }
    requires below { PartsAreBelow nodes.old }
    ensures reads { (c : Scopes) → Reads (text_of source.now) (expect plain Word.Semicolon depth (made kind start none)) c (start + 1) nodes.new c result }
    ensures placed { IfOk result (λ x. IsPlaced (length source.now.tokens.now) start nodes.old nodes.new [] x) }
{
    expect(source, start + 1, Word::Semicolon, depth)?;
    leaf(alloc, nodes, kind, start, start + 1 + 1)
}
