// Level 1: what is assigned comes to the other use of what it is assigned to.
ghost use Rattle.std.specs.Prelude.{◌≡◌, ◌++◌, ◌∷◌, [], length, IfOk, OnOk};
ghost use Rattle.std.specs.List.{position};
ghost use Rattle.pass_levels.specs.Level.{level_of};
ghost use Rattle.pass_levels.specs.Nodes.{node_at};
ghost use Rattle.pass_values.specs.Declarators.{facts_of};
ghost use Rattle.pass_values.specs.Values.{assigned, assigned_from, assigned_give, assigned_to, assignment_by, declarator_from, left_by, other_by, other_of, other_use, plain_goes, plain_in, plain_of, read_if, read_of};

use crate::declarators::{Plain, comes_to, declarator_goes, row_at};
use crate::initial::put_counted;
use crate::known::Known;
use cr_syntax::Kind;
use pass_edit::{Change, Edits, Text};
use pass_levels::{Counted, Level, kind_at, list, parts_at, replaced, span_at};
use pass_params::{in_order, number_of, part_at, same_number, uses_of};
use std::alloc::{AllocError, Global};

fn other_by(token: u32, one: u32, another: u32) -> Option<u32>
    ensures { result ≡ other_by token one another }
{
    if one == token {
        Some(another)
    } else if another == token {
        Some(one)
    } else {
        None
    }
}

// The other one of two uses.
fn other_of(token: u32, uses: &[u32]) -> Option<u32>
    ensures { result ≡ other_of token uses.now }
{
    if uses.len() == 2 {
        other_by(token, uses[0], uses[1])
    } else {
        None
    }
}

fn read_if(lefts: &[u32], token: u32) -> Option<u32>
    ensures { result ≡ read_if lefts.now token }
{
    if lefts.contains(&token) {
        None
    } else {
        Some(token)
    }
}

// A use that isn't the left of `=`.
fn read_of(lefts: &[u32], token: Option<u32>) -> Option<u32>
    ensures { result ≡ read_of lefts.now token }
{
    match token {
        Some(token) => read_if(lefts, token),
        None => None,
    }
}

fn other_use(known: &Known, token: u32) -> Option<u32>
    ensures { result ≡ other_use (facts_of known.now) token }
{
    read_of(known.lefts, other_of(token, uses_of(known.names, token)))
}

fn plain_of(plains: &[Plain], at: usize) -> Plain
    ensures { result ≡ plain_of plains.now at }
{
    match plains.get(at) {
        Some(plain) => *plain,
        None => Plain {
            declaration: 0,
            at: 0,
            number: None,
        },
    }
}

fn plain_in(known: &Known, plain: Plain, row: &[u32]) -> Change
    ensures { result ≡ plain_in (facts_of known.now) plain row.now }
{
    let at = plain.at as usize;
    let declarator = part_at(row, at) as usize;
    declarator_goes(
        known.tokens,
        known.nodes,
        plain.declaration as usize,
        at,
        row.len(),
        declarator,
    )
}

fn plain_goes(known: &Known, plain: Plain) -> Change
    ensures { result ≡ plain_goes (facts_of known.now) plain }
{
    let row = row_at(known.nodes, plain.declaration as usize);
    plain_in(known, plain, row)
}

// The place of the first declarator without initialiser that declares what a token names.
fn declarator_from(known: &Known, token: u32) -> Option<usize>
    ensures { result ≡ declarator_from (facts_of known.now) token }
{
    let number = number_of(known.names, token);
    known
        .plains
        .iter()
        .position(|plain| same_number(number, plain.number))
}

fn put_assigned(
    alloc: Global,
    known: &Known,
    statement: usize,
    expression: u32,
    other: u32,
    at: usize,
    all: &mut Vec<Counted>,
) -> Result<(), AllocError>
    ensures { OnOk result (all.new.items ≡ all.old.items ++ assigned (facts_of known.now) (node_at known.now.nodes.now statement) expression other at ∷ []) }
{
    let (first, last) = span_at(known.nodes, statement);
    let mut changes = Vec::new(alloc);
    changes.push(comes_to(known.tokens, other, expression))?;
    changes.push(replaced(known.tokens, first as usize, last as usize, Text::Semicolon))?;
    changes.push(plain_goes(known, plain_of(known.plains, at)))?;
    let edit = in_order(alloc, changes.as_slice())?;
    put_counted(known, statement, edit, all)
}

fn put_assigned_from(
    alloc: Global,
    known: &Known,
    statement: usize,
    expression: u32,
    other: u32,
    at: Option<usize>,
    all: &mut Vec<Counted>,
) -> Result<(), AllocError>
    ensures { OnOk result (all.new.items ≡ all.old.items ++ assigned_from at (facts_of known.now) (node_at known.now.nodes.now statement) expression other) }
{
    match at {
        Some(at) => put_assigned(alloc, known, statement, expression, other, at, all),
        None => Ok(()),
    }
}

fn put_assigned_to(
    alloc: Global,
    known: &Known,
    statement: usize,
    expression: u32,
    token: u32,
    all: &mut Vec<Counted>,
) -> Result<(), AllocError>
    ensures { OnOk result (all.new.items ≡ all.old.items ++ assigned_to (facts_of known.now) (node_at known.now.nodes.now statement) expression token) }
{
    match other_use(known, token) {
        Some(other) => {
            let at = declarator_from(known, token);
            put_assigned_from(alloc, known, statement, expression, other, at, all)
        }
        None => Ok(()),
    }
}

fn put_left(
    alloc: Global,
    known: &Known,
    statement: usize,
    expression: u32,
    left: usize,
    all: &mut Vec<Counted>,
) -> Result<(), AllocError>
    ensures { OnOk result (all.new.items ≡ all.old.items ++ left_by (node_at known.now.nodes.now left).kind (facts_of known.now) (node_at known.now.nodes.now statement) expression (node_at known.now.nodes.now left)) }
{
    let (token, _) = span_at(known.nodes, left);
    match kind_at(known.nodes, left) {
        Kind::Identifier => put_assigned_to(alloc, known, statement, expression, token, all),
        _ => Ok(()),
    }
}

fn put_assignment(
    alloc: Global,
    known: &Known,
    statement: usize,
    part: usize,
    all: &mut Vec<Counted>,
) -> Result<(), AllocError>
    ensures { OnOk result (all.new.items ≡ all.old.items ++ assignment_by (node_at known.now.nodes.now part).kind (facts_of known.now) (node_at known.now.nodes.now statement) (node_at known.now.nodes.now part).parts) }
{
    let parts = parts_at(known.nodes, part);
    match kind_at(known.nodes, part) {
        Kind::Assign => {
            let left = part_at(parts, 0) as usize;
            put_left(alloc, known, statement, part_at(parts, 1), left, all)
        }
        _ => Ok(()),
    }
}

fn put_statement(
    alloc: Global,
    known: &Known,
    node: usize,
    all: &mut Vec<Counted>,
) -> Result<(), AllocError>
    ensures { OnOk result (all.new.items ≡ all.old.items ++ assigned_give (facts_of known.now) node) }
{
    match kind_at(known.nodes, node) {
        Kind::ExpressionStatement => match parts_at(known.nodes, node).first() {
            Some(part) => put_assignment(alloc, known, node, *part as usize, all),
            None => Ok(()),
        },
        _ => Ok(()),
    }
}

// What each statement assigns comes to the other use.
#[derive(Drop)]
struct AssignedMove<'a> {
    known: &'a Known<'a>,
}

impl Level for AssignedMove<'_> {
    ghost gives = { λ l k. assigned_give (facts_of l.known.now) k };

    fn give(&self, alloc: Global, node: usize, all: &mut Vec<Counted>) -> Result<(), AllocError> {
        put_statement(alloc, self.known, node, all)
    }
}

/// Level 1. The error is want of memory.
pub fn assigned_level(alloc: Global, known: &Known) -> Result<Edits, AllocError>
    ensures { IfOk result (λ edits. edits ≡ level_of (assigned_give (facts_of known.now)) (length known.now.nodes.now)) }
{
    list(alloc, known.nodes.len(), &AssignedMove { known })
}
