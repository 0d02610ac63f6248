//! Statements that hold statements (C11 6.8), one function a goal of the machine. All of them call one another.

ghost use Rattle.std.specs.Prelude.{◌≡◌, ◌+◌, ◌<◌, ◌≤◌, ◌^◌, ◌∷◌, [], true, IfOk, IfErr, length, option_to_list};
ghost use Rattle.cr_syntax.specs.Trees.{none, one, ◌&◌};
ghost use Rattle.cr_syntax.specs.Context.{ends_open};
ghost use Rattle.cr_syntax.specs.Kept.{PartsAreBelow, AreBelow, row_in};
ghost use Rattle.cr_syntax_machine.specs.Machine.{own_block, nowhere, around, statement, block, if_rest, switch_rest, while_rest, do_rest, for_rest, for_clauses, compound, items, item};
ghost use Rattle.cr_syntax_machine.specs.MachineBody.{body};
ghost use Rattle.cr_exprs_descent.specs.Source.{IsReadable, text_of};
ghost use Rattle.cr_exprs_descent.specs.Answers.{Reads, IsPlaced, IsPushed, tree};
ghost use Rattle.cr_decls.specs.Programs.{labels_of, is_marked, label_rest, case_rest, default_rest, labelled, unlabelled};

use crate::clauses::{clause, controlling, first_clause, last_clause, loop_parts, repeated};
use crate::declarations::declaration;
use crate::labels::{Labels, may_label, may_mark};
use crate::simple::simple;
use crate::start::{bar_body_label, bar_label, bar_statement, stands_label};
use cr_exprs_descent::{
    Found, Goal, Optional, ParseFault, Source, drop_scope, expect, over, pair, push, read, room,
    stands, starts_specifier, triple,
};
use cr_rows::Row;
use cr_syntax::{Kind, Node, OpenScopes, Word, begin, ends_open};
use std::alloc::Global;

/// A statement (6.8).
#[cycle(statements)]
fn statement(
    alloc: Global,
    source: &Source,
    labels: Labels,
    at: usize,
    depth: usize,
    scopes: &mut OpenScopes,
    nodes: &mut Row<Node>,
) -> Result<Found, ParseFault>
    requires readable { IsReadable source.now }
    requires at { at ≤ length source.now.tokens.now }
    requires depth { depth ≤ 128 }
    requires below { PartsAreBelow nodes.old }
    ensures reads { Reads (text_of source.now) (body (statement (labels_of labels) depth)) scopes.old at nodes.new scopes.new result }
    ensures placed { IfOk result (λ x. IsPlaced (length source.now.tokens.now) at nodes.old nodes.new [] x) }
{
    if stands_label(source, at) {
        return label(alloc, source, labels, at, depth, scopes, nodes);
    }
    if may_label(labels) {
        return labelled(alloc, source, at, depth, scopes, nodes);
    }
    bar_label(source, at, depth)?;
    unlabelled(alloc, source, at, depth, scopes, nodes)
}

/// The colon behind an identifier that labels a statement, and what stands behind it (6.8.1).
#[cycle(statements)]
fn label(
    alloc: Global,
    source: &Source,
    labels: Labels,
    start: usize,
    depth: usize,
    scopes: &mut OpenScopes,
    nodes: &mut Row<Node>,
) -> Result<Found, ParseFault>
    requires readable { IsReadable source.now }
    requires label { is_marked (text_of source.now) start ≡ true }
    requires at { start + 1 < length source.now.tokens.now }
    requires depth { depth ≤ 128 }
    requires below { PartsAreBelow nodes.old }
    ensures reads { Reads (text_of source.now) (label_rest (labels_of labels) depth start) scopes.old (start + 1) nodes.new scopes.new result }
    ensures placed { IfOk result (λ x. IsPlaced (length source.now.tokens.now) start nodes.old nodes.new [] x) }
{
    if !may_mark(labels) {
        return Err(ParseFault::OutsideSubset(start as u32, 9));
    }
    room(start + 1, depth)?;
    let inner = statement(
        alloc,
        source,
        labels,
        start + 1 + 1,
        depth + 1,
        scopes,
        nodes,
    )?;
    over(alloc, nodes, Kind::Label, start, inner.next, inner.node)
}

/// A statement without a label that is an identifier, where `case` and `default` may stand (6.8.1).
#[cycle(statements)]
fn labelled(
    alloc: Global,
    source: &Source,
    at: usize,
    depth: usize,
    scopes: &mut OpenScopes,
    nodes: &mut Row<Node>,
) -> Result<Found, ParseFault>
    requires readable { IsReadable source.now }
    requires at { at ≤ length source.now.tokens.now }
    requires depth { depth ≤ 128 }
    requires below { PartsAreBelow nodes.old }
    ensures reads { Reads (text_of source.now) (labelled depth at) scopes.old at nodes.new scopes.new result }
    ensures placed { IfOk result (λ x. IsPlaced (length source.now.tokens.now) at nodes.old nodes.new [] x) }
{
    if stands(source, at, Word::Case) {
        return case(alloc, source, at, depth, scopes, nodes);
    }
    if stands(source, at, Word::Default) {
        return default(alloc, source, at, depth, scopes, nodes);
    }
    unlabelled(alloc, source, at, depth, scopes, nodes)
}

/// What stands behind `case`.
#[cycle(statements)]
fn case(
    alloc: Global,
    source: &Source,
    start: usize,
    depth: usize,
    scopes: &mut OpenScopes,
    nodes: &mut Row<Node>,
) -> Result<Found, ParseFault>
    requires readable { IsReadable source.now }
    requires at { start + 1 ≤ length source.now.tokens.now }
    requires depth { depth ≤ 128 }
    requires below { PartsAreBelow nodes.old }
    ensures reads { Reads (text_of source.now) (case_rest depth start) scopes.old (start + 1) nodes.new scopes.new result }
    ensures placed { IfOk result (λ x. IsPlaced (length source.now.tokens.now) start nodes.old nodes.new [] x) }
{
    let value = read(
        alloc,
        source,
        Goal::Conditional,
        start + 1,
        depth,
        scopes,
        nodes,
    )?;
    expect(source, value.next, Word::Colon, depth)?;
    room(value.next, depth)?;
    let inner = statement(
        alloc,
        source,
        Labels::OwnBlock,
        value.next + 1,
        depth + 1,
        scopes,
        nodes,
    )?;
    pair(
        alloc,
        nodes,
        Kind::Case,
        start,
        inner.next,
        value.node,
        inner.node,
    )
}

/// What stands behind `default`.
#[cycle(statements)]
fn default(
    alloc: Global,
    source: &Source,
    start: usize,
    depth: usize,
    scopes: &mut OpenScopes,
    nodes: &mut Row<Node>,
) -> Result<Found, ParseFault>
    requires readable { IsReadable source.now }
    requires at { start + 1 ≤ length source.now.tokens.now }
    requires depth { depth ≤ 128 }
    requires below { PartsAreBelow nodes.old }
    ensures reads { Reads (text_of source.now) (default_rest depth start) scopes.old (start + 1) nodes.new scopes.new result }
    ensures placed { IfOk result (λ x. IsPlaced (length source.now.tokens.now) start nodes.old nodes.new [] x) }
{
    expect(source, start + 1, Word::Colon, depth)?;
    room(start + 1, depth)?;
    let inner = statement(
        alloc,
        source,
        Labels::OwnBlock,
        start + 1 + 1,
        depth + 1,
        scopes,
        nodes,
    )?;
    over(alloc, nodes, Kind::Default, start, inner.next, inner.node)
}

/// A statement without labels.
#[cycle(statements)]
fn unlabelled(
    alloc: Global,
    source: &Source,
    at: usize,
    depth: usize,
    scopes: &mut OpenScopes,
    nodes: &mut Row<Node>,
) -> Result<Found, ParseFault>
    requires readable { IsReadable source.now }
    requires at { at ≤ length source.now.tokens.now }
    requires depth { depth ≤ 128 }
    requires below { PartsAreBelow nodes.old }
    ensures reads { Reads (text_of source.now) (unlabelled depth at) scopes.old at nodes.new scopes.new result }
    ensures placed { IfOk result (λ x. IsPlaced (length source.now.tokens.now) at nodes.old nodes.new [] x) }
{
    if stands(source, at, Word::LeftBrace) {
        return compound(alloc, source, Labels::InBlock, at, depth, scopes, nodes);
    }
    if stands(source, at, Word::If) {
        return if_rest(alloc, source, at, depth, scopes, nodes);
    }
    if stands(source, at, Word::Switch) {
        return switch_rest(alloc, source, at, depth, scopes, nodes);
    }
    if stands(source, at, Word::While) {
        return while_rest(alloc, source, at, depth, scopes, nodes);
    }
    if stands(source, at, Word::Do) {
        room(at, depth)?;
        return do_rest(alloc, source, at, depth, scopes, nodes);
    }
    if stands(source, at, Word::For) {
        return for_rest(alloc, source, at, depth, scopes, nodes);
    }
    simple(alloc, source, at, depth, scopes, nodes)
}

/// A statement that is a block by itself.
#[cycle(statements)]
fn block(
    alloc: Global,
    source: &Source,
    at: usize,
    depth: usize,
    scopes: &mut OpenScopes,
    nodes: &mut Row<Node>,
) -> Result<Found, ParseFault>
    requires readable { IsReadable source.now }
    requires at { at ≤ length source.now.tokens.now }
    requires depth { depth ≤ 128 }
    requires below { PartsAreBelow nodes.old }
    ensures reads { Reads (text_of source.now) (body (block nowhere depth)) scopes.old at nodes.new scopes.new result }
    ensures placed { IfOk result (λ x. IsPlaced (length source.now.tokens.now) at nodes.old nodes.new [] x) }
{
    begin(alloc, scopes)?;
    let inner = statement(alloc, source, Labels::Nowhere, at, depth, scopes, nodes)?;
    drop_scope(scopes);
    Ok(inner)
}

/// What stands behind `if` (6.8.4).
#[cycle(statements)]
fn if_rest(
    alloc: Global,
    source: &Source,
    start: usize,
    depth: usize,
    scopes: &mut OpenScopes,
    nodes: &mut Row<Node>,
) -> Result<Found, ParseFault>
    requires readable { IsReadable source.now }
    requires at { start + 1 ≤ length source.now.tokens.now }
    requires depth { depth ≤ 128 }
    requires below { PartsAreBelow nodes.old }
    ensures reads { Reads (text_of source.now) (body (if_rest nowhere depth start)) scopes.old (start + 1) nodes.new scopes.new result }
    ensures placed { IfOk result (λ x. IsPlaced (length source.now.tokens.now) start nodes.old nodes.new [] x) }
{
    let test = controlling(alloc, source, start + 1, depth, scopes, nodes)?;
    let yes = block(alloc, source, test.next, depth + 1, scopes, nodes)?;
    if is_open(nodes, yes.node) {
        return without_else(alloc, start, test, yes, scopes, nodes);
    }
    if !stands(source, yes.next, Word::Else) {
        return without_else(alloc, start, test, yes, scopes, nodes);
    }
    let no = block(alloc, source, yes.next + 1, depth + 1, scopes, nodes)?;
    drop_scope(scopes);
    triple(
        alloc,
        nodes,
        Kind::If,
        start,
        no.next,
        test.node,
        yes.node,
        no.node,
    )
}

/// What stands behind `switch`, whose body is a block.
#[cycle(statements)]
fn switch_rest(
    alloc: Global,
    source: &Source,
    start: usize,
    depth: usize,
    scopes: &mut OpenScopes,
    nodes: &mut Row<Node>,
) -> Result<Found, ParseFault>
    requires readable { IsReadable source.now }
    requires at { start + 1 ≤ length source.now.tokens.now }
    requires depth { depth ≤ 128 }
    requires below { PartsAreBelow nodes.old }
    ensures reads { Reads (text_of source.now) (body (switch_rest nowhere depth start)) scopes.old (start + 1) nodes.new scopes.new result }
    ensures placed { IfOk result (λ x. IsPlaced (length source.now.tokens.now) start nodes.old nodes.new [] x) }
{
    let test = controlling(alloc, source, start + 1, depth, scopes, nodes)?;
    bar_body_label(source, test.next, depth + 1)?;
    bar_statement(source, test.next, depth + 1)?;
    begin(alloc, scopes)?;
    let inner = compound(
        alloc,
        source,
        Labels::OwnBlock,
        test.next,
        depth + 1,
        scopes,
        nodes,
    )?;
    drop_scope(scopes);
    drop_scope(scopes);
    pair(
        alloc,
        nodes,
        Kind::Switch,
        start,
        inner.next,
        test.node,
        inner.node,
    )
}

/// What stands behind `while` (6.8.5).
#[cycle(statements)]
fn while_rest(
    alloc: Global,
    source: &Source,
    start: usize,
    depth: usize,
    scopes: &mut OpenScopes,
    nodes: &mut Row<Node>,
) -> Result<Found, ParseFault>
    requires readable { IsReadable source.now }
    requires at { start + 1 ≤ length source.now.tokens.now }
    requires depth { depth ≤ 128 }
    requires below { PartsAreBelow nodes.old }
    ensures reads { Reads (text_of source.now) (body (while_rest nowhere depth start)) scopes.old (start + 1) nodes.new scopes.new result }
    ensures placed { IfOk result (λ x. IsPlaced (length source.now.tokens.now) start nodes.old nodes.new [] x) }
{
    let test = controlling(alloc, source, start + 1, depth, scopes, nodes)?;
    let inner = block(alloc, source, test.next, depth + 1, scopes, nodes)?;
    drop_scope(scopes);
    pair(
        alloc,
        nodes,
        Kind::While,
        start,
        inner.next,
        test.node,
        inner.node,
    )
}

/// What stands behind `do`.
#[cycle(statements)]
fn do_rest(
    alloc: Global,
    source: &Source,
    start: usize,
    depth: usize,
    scopes: &mut OpenScopes,
    nodes: &mut Row<Node>,
) -> Result<Found, ParseFault>
    requires readable { IsReadable source.now }
    requires at { start + 1 ≤ length source.now.tokens.now }
    requires depth { depth < 128 }
    requires below { PartsAreBelow nodes.old }
    ensures reads { Reads (text_of source.now) (body (do_rest nowhere depth start)) scopes.old (start + 1) nodes.new scopes.new result }
    ensures placed { IfOk result (λ x. IsPlaced (length source.now.tokens.now) start nodes.old nodes.new [] x) }
{
    begin(alloc, scopes)?;
    let inner = block(alloc, source, start + 1, depth + 1, scopes, nodes)?;
    expect(source, inner.next, Word::While, depth)?;
    let test = repeated(alloc, source, inner.next + 1, depth, scopes, nodes)?;
    drop_scope(scopes);
    pair(
        alloc,
        nodes,
        Kind::Do,
        start,
        test.next,
        inner.node,
        test.node,
    )
}

/// What stands behind `for`.
#[cycle(statements)]
fn for_rest(
    alloc: Global,
    source: &Source,
    start: usize,
    depth: usize,
    scopes: &mut OpenScopes,
    nodes: &mut Row<Node>,
) -> Result<Found, ParseFault>
    requires readable { IsReadable source.now }
    requires at { start + 1 ≤ length source.now.tokens.now }
    requires depth { depth ≤ 128 }
    requires below { PartsAreBelow nodes.old }
    ensures reads { Reads (text_of source.now) (body (for_rest nowhere depth start)) scopes.old (start + 1) nodes.new scopes.new result }
    ensures placed { IfOk result (λ x. IsPlaced (length source.now.tokens.now) start nodes.old nodes.new [] x) }
{
    begin(alloc, scopes)?;
    expect(source, start + 1, Word::LeftParen, depth)?;
    room(start + 1, depth)?;
    let first = first_clause(alloc, source, start + 1 + 1, depth, scopes, nodes)?;
    for_clauses(alloc, source, start, first, depth, scopes, nodes)
}

/// What stands behind the first clause of a `for`.
#[cycle(statements)]
fn for_clauses(
    alloc: Global,
    source: &Source,
    start: usize,
    first: Optional,
    depth: usize,
    scopes: &mut OpenScopes,
    nodes: &mut Row<Node>,
) -> Result<Found, ParseFault>
    requires readable { IsReadable source.now }
    requires at { first.next ≤ length source.now.tokens.now }
    requires depth { depth < 128 }
    requires below { PartsAreBelow nodes.old }
    requires start { start < first.next }
    requires node { AreBelow (option_to_list first.node) (length nodes.old) }
    ensures reads { Reads (text_of source.now) (body (for_clauses nowhere depth start (row_in nodes.old (option_to_list first.node)))) scopes.old first.next nodes.new scopes.new result }
    ensures placed { IfOk result (λ x. IsPlaced (length source.now.tokens.now) start nodes.old nodes.new (option_to_list first.node) x) }
{
    let test = clause(alloc, source, first.next, depth + 1, scopes, nodes)?;
    let step = last_clause(alloc, source, test.next, depth, scopes, nodes)?;
    let inner = block(alloc, source, step.next, depth + 1, scopes, nodes)?;
    drop_scope(scopes);
    let parts = loop_parts(alloc, first.node, test.node, step.node, inner.node)?;
    push(nodes, Kind::For, start, inner.next, parts)
}

/// A block (6.8.2).
#[cycle(statements)]
pub(crate) fn compound(
    alloc: Global,
    source: &Source,
    labels: Labels,
    at: usize,
    depth: usize,
    scopes: &mut OpenScopes,
    nodes: &mut Row<Node>,
) -> Result<Found, ParseFault>
    requires readable { IsReadable source.now }
    requires at { at ≤ length source.now.tokens.now }
    requires depth { depth ≤ 128 }
    requires below { PartsAreBelow nodes.old }
    ensures reads { Reads (text_of source.now) (body (compound (labels_of labels) depth)) scopes.old at nodes.new scopes.new result }
    ensures placed { IfOk result (λ x. IsPlaced (length source.now.tokens.now) at nodes.old nodes.new [] x) }
{
    begin(alloc, scopes)?;
    expect(source, at, Word::LeftBrace, depth)?;
    room(at, depth)?;
    let inner = items(alloc, source, labels, at, depth, scopes, nodes)?;
    drop_scope(scopes);
    Ok(inner)
}

/// The items of a block behind its `{`, and its `}`.
#[cycle(statements)]
fn items(
    alloc: Global,
    source: &Source,
    labels: Labels,
    start: usize,
    depth: usize,
    scopes: &mut OpenScopes,
    nodes: &mut Row<Node>,
) -> Result<Found, ParseFault>
    requires readable { IsReadable source.now }
    requires at { start + 1 ≤ length source.now.tokens.now }
    requires depth { depth < 128 }
    requires below { PartsAreBelow nodes.old }
    ensures reads { Reads (text_of source.now) (body (items (labels_of labels) depth start none)) scopes.old (start + 1) nodes.new scopes.new result }
    ensures placed { IfOk result (λ x. IsPlaced (length source.now.tokens.now) start nodes.old nodes.new [] x) }
{
    let mut parts = Row::new(alloc);
    let mut next = start + 1;
    'items: loop {
        if stands(source, next, Word::RightBrace) {
            return push(nodes, Kind::Compound, start, next + 1, parts);
        }
        let one = item(alloc, source, labels, next, depth + 1, scopes, nodes)?;
        parts.push(one.node)?;
        next = one.next;
    }
}

/// An item of a block.
#[cycle(statements)]
fn item(
    alloc: Global,
    source: &Source,
    labels: Labels,
    at: usize,
    depth: usize,
    scopes: &mut OpenScopes,
    nodes: &mut Row<Node>,
) -> Result<Found, ParseFault>
    requires readable { IsReadable source.now }
    requires at { at ≤ length source.now.tokens.now }
    requires depth { depth ≤ 128 }
    requires below { PartsAreBelow nodes.old }
    ensures reads { Reads (text_of source.now) (body (item (labels_of labels) depth)) scopes.old at nodes.new scopes.new result }
    ensures placed { IfOk result (λ x. IsPlaced (length source.now.tokens.now) at nodes.old nodes.new [] x) }
{
    if stands_label(source, at) {
        return label(alloc, source, labels, at, depth, scopes, nodes);
    }
    if starts_specifier(source, at, false, scopes) {
        return declaration(alloc, source, at, depth, scopes, nodes);
    }
    statement(alloc, source, labels, at, depth, scopes, nodes)
}

/// Whether a statement ends in an `if` without `else`.
fn is_open(nodes: &Row<Node>, node: u32) -> bool
    requires below { PartsAreBelow nodes.now }
    requires node { node < length nodes.now }
    ensures { result ≡ ends_open (tree nodes.now node) }
{
    ends_open(nodes.as_slice(), &[node], nodes.len())
}

/// An `if` without `else`, at whose end its scope ends.
fn without_else(
    alloc: Global,
    start: usize,
    test: Found,
    yes: Found,
    scopes: &mut OpenScopes,
    nodes: &mut Row<Node>,
) -> Result<Found, ParseFault>
    requires below { PartsAreBelow nodes.old }
    requires test { test.node < length nodes.old }
    requires yes { yes.node < length nodes.old }
    requires start { start < yes.next }
    requires next { yes.next < 2 ^ 32 }
    ensures scopes { scopes.new ≡ around scopes.old }
    ensures ok { IfOk result (λ x. IsPushed nodes.old nodes.new (yes.node ∷ test.node ∷ []) x) }
    ensures next { IfOk result (λ x. x.next ≡ yes.next) }
    ensures tree { IfOk result (λ x. tree nodes.new x.node ≡ one Kind.If start yes.next (tree nodes.old test.node & tree nodes.old yes.node & none)) }
    ensures err { IfErr result (λ fault. fault ≡ ParseFault.NoMemory) }
{
    drop_scope(scopes);
    pair(alloc, nodes, Kind::If, start, yes.next, test.node, yes.node)
}
