// The levels of pass s.
ghost use Rattle.std.specs.Prelude.{◌≡◌, ◌++◌, IfOk, OnOk};
ghost use Rattle.pass_levels.specs.Nodes.{node_at};
ghost use Rattle.pass_stmts.specs.Bodies.{first_body_of, second_branch_of};
ghost use Rattle.pass_stmts.specs.Statements.{bodies_give, braces_give, elses_give, emptied_give, items_at, items_give, s_offering, unwrapped, unwrapped_by};

use crate::bodies::{Bodies, bodies_by, bodies_of};
use crate::labels::labels_go;
use cr_rows::Row;
use cr_syntax::{Kind, Node};
use cr_tokens::Token;
use pass_edit::{Kept, Menu, Text};
use pass_levels::{
    Counted, Level, behind_first, first_of, gone, kind_at, list, parts_at, put_each_becoming,
    put_in_its_place, span_at,
};
use std::alloc::{AllocError, Global};

// Each item of a compound statement goes.
#[derive(Drop)]
struct ItemsGo<'a> {
    tokens: &'a [Token],
    nodes: &'a [Node],
}

impl Level for ItemsGo<'_> {
    ghost gives = { λ l k. items_give l.tokens.now l.nodes.now k };

    fn give(&self, alloc: Global, node: usize, all: &mut Vec<Counted>) -> Result<(), AllocError> {
        let items = items_at(self.nodes, node);
        put_each_becoming(alloc, self.tokens, self.nodes, items, Text::Nothing, all)
    }
}

// Each statement with a body becomes it, an `if` its first one.
#[derive(Drop)]
struct BodiesStay<'a> {
    tokens: &'a [Token],
    nodes: &'a [Node],
}

impl Level for BodiesStay<'_> {
    ghost gives = { λ l k. bodies_give l.tokens.now l.nodes.now k };

    fn give(&self, alloc: Global, node: usize, all: &mut Vec<Counted>) -> Result<(), AllocError> {
        let bodies = bodies_by(kind_at(self.nodes, node));
        let body = first_body_of(bodies, parts_at(self.nodes, node));
        put_in_its_place(alloc, self.tokens, self.nodes, node, body, all)
    }
}

// Each `if` with `else` becomes its second body.
#[derive(Drop)]
struct ElsesStay<'a> {
    tokens: &'a [Token],
    nodes: &'a [Node],
}

impl Level for ElsesStay<'_> {
    ghost gives = { λ l k. elses_give l.tokens.now l.nodes.now k };

    fn give(&self, alloc: Global, node: usize, all: &mut Vec<Counted>) -> Result<(), AllocError> {
        let bodies = bodies_by(kind_at(self.nodes, node));
        let body = second_branch_of(bodies, parts_at(self.nodes, node));
        put_in_its_place(alloc, self.tokens, self.nodes, node, body, all)
    }
}

// Each body becomes an empty statement.
#[derive(Drop)]
struct BodiesEmpty<'a> {
    tokens: &'a [Token],
    nodes: &'a [Node],
}

impl Level for BodiesEmpty<'_> {
    ghost gives = { λ l k. emptied_give l.tokens.now l.nodes.now k };

    fn give(&self, alloc: Global, node: usize, all: &mut Vec<Counted>) -> Result<(), AllocError> {
        let bodies = bodies_of(
            bodies_by(kind_at(self.nodes, node)),
            parts_at(self.nodes, node),
        );
        put_each_becoming(alloc, self.tokens, self.nodes, bodies, Text::Semicolon, all)
    }
}

// Of each item that is a compound statement the two braces go.
#[derive(Drop)]
struct BracesGo<'a> {
    tokens: &'a [Token],
    nodes: &'a [Node],
}

impl Level for BracesGo<'_> {
    ghost gives = { λ l k. braces_give l.tokens.now l.nodes.now k };

    fn give(&self, alloc: Global, node: usize, all: &mut Vec<Counted>) -> Result<(), AllocError> {
        for item in items_at(self.nodes, node) {
            put_unwrapped(alloc, self.tokens, self.nodes, *item as usize, all)?;
        }
        Ok(())
    }
}

fn put_unwrapped(
    alloc: Global,
    tokens: &[Token],
    nodes: &[Node],
    item: usize,
    all: &mut Vec<Counted>,
) -> Result<(), AllocError>
    ensures { OnOk result (all.new.items ≡ all.old.items ++ unwrapped_by (node_at nodes.now item).kind tokens.now (node_at nodes.now item)) }
{
    match kind_at(nodes, item) {
        Kind::Compound => all.push(unwrapped(alloc, tokens, nodes, item)?)?,
        _ => {}
    }
    Ok(())
}

fn unwrapped(
    alloc: Global,
    tokens: &[Token],
    nodes: &[Node],
    item: usize,
) -> Result<Counted, AllocError>
    ensures { IfOk result (λ counted. counted ≡ unwrapped tokens.now (node_at nodes.now item)) }
{
    let (first, last) = span_at(nodes, item);
    let mut edit = Row::new(alloc);
    edit.push(gone(tokens, first as usize, first as usize))?;
    edit.push(gone(tokens, last as usize, last as usize))?;
    Ok(Counted { first, last, edit })
}

fn items_at(nodes: &[Node], node: usize) -> &[u32]
    ensures { result.now ≡ items_at nodes.now node }
{
    match kind_at(nodes, node) {
        Kind::Compound => parts_at(nodes, node),
        _ => &[],
    }
}

fn first_body_of(bodies: Bodies, parts: &[u32]) -> &[u32]
    ensures { result.now ≡ first_body_of bodies parts.now }
{
    match bodies {
        Bodies::BehindLabel => &[],
        _ => first_of(bodies_of(bodies, parts)),
    }
}

fn second_branch_of(bodies: Bodies, parts: &[u32]) -> &[u32]
    ensures { result.now ≡ second_branch_of bodies parts.now }
{
    match bodies {
        Bodies::Branches => behind_first(behind_first(parts)),
        _ => &[],
    }
}

/// What pass s offers for a file's unit of these tokens and nodes: at level 0 each item of a compound statement goes; at level 1 each `if`, `switch`,
/// `while`, `do` and `for` becomes its body, an `if` the first; at level 2 each `if` with `else` its second; at level 3 each body, and each
/// statement behind a label, becomes `;`; at level 4 the braces of each item that is a compound statement go; at level 5 each label that no
/// `goto` of its function names goes with its `:`. Level 5 takes time by its labels and the file's `goto`s, the others by the nodes. The error
/// is want of memory.
pub fn statements(
    alloc: Global,
    file: &[u8],
    tokens: &[Token],
    nodes: &[Node],
) -> Result<Menu, AllocError>
    ensures { IfOk result (λ menu. menu ≡ s_offering file.now tokens.now nodes.now) }
{
    let count = nodes.len();
    let mut levels = Vec::new(alloc);
    levels.push(list(alloc, count, &ItemsGo { tokens, nodes })?)?;
    levels.push(list(alloc, count, &BodiesStay { tokens, nodes })?)?;
    levels.push(list(alloc, count, &ElsesStay { tokens, nodes })?)?;
    levels.push(list(alloc, count, &BodiesEmpty { tokens, nodes })?)?;
    levels.push(list(alloc, count, &BracesGo { tokens, nodes })?)?;
    levels.push(labels_go(alloc, file, tokens, nodes)?)?;
    Ok(Menu::new(levels, Kept::nothing(alloc)))
}
