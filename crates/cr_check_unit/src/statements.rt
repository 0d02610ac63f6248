ghost use Rattle.std.specs.Prelude.{◌≡◌, ◌⊎◌, IfOk, OnOk, List, length, map, slice_index_or};
ghost use Rattle.cr_syntax.specs.Words.{AreSpans};
ghost use Rattle.cr_check_types.specs.declared.shape.Shape as shape;
ghost use Rattle.cr_check_types.specs.Types.{unknown, IsRow, Grows};
ghost use Rattle.cr_check_expressions.specs.Known.{named_row};
ghost use Rattle.cr_check_expressions.specs.Breaks.{IsFirst};
ghost use Rattle.cr_check_statements.specs.Setting.{scene_of, AreResults};
ghost use Rattle.cr_check_statements.specs.Statements.{IsBroken};
ghost use Rattle.cr_check_labels.specs.Labelled.{scene_of as labelled_scene};
ghost use Rattle.cr_check_unit.specs.Typing.{IsTyping, AreWithin};
ghost use Rattle.cr_check_unit.specs.Statements.{labelled_in, scene_in, is_definition, result_in, AreMarked, IsUnitBroken};

use crate::nodes::{CheckedNodes, check_nodes};
use crate::typing::Typing;
use cr_check_declarations::Tree;
use cr_check_expressions::{Break, lesser, part_at};
use cr_check_labels::{Labelled, again, labels};
use cr_check_statements::{Setting, check_statements};
use cr_check_types::Table;
use cr_holding::holding;
use cr_rows::{Row, entry_at};
use cr_syntax::{Kind, Node};
use std::alloc::{AllocError, Global};

/// What the statements of a unit are checked by, beside what its nodes have: columns with one entry a node.
#[derive(Drop)]
pub struct Marked {
    /// For each definition of a function the row of the type that it gives.
    pub results: Row<u32>,
    /// Whether a `case`, a `default` or a label repeats an earlier one.
    pub again: Row<bool>,
    /// For each `goto` the label that it names.
    pub labels: Row<Option<u32>>,
}

/// What each node of a unit has, and the first constraint that is broken.
#[derive(Drop)]
pub struct Whole {
    pub typing: Typing,
    pub marked: Marked,
    pub broken: Option<Break>,
}

/// Checks the expressions, declarations and statements of a unit. `texts` has the bytes of each string literal, with its closing
/// zero. The table's first row is that of no type. The error is want of memory.
pub fn check_unit(
    alloc: Global,
    table: &mut Table,
    tree: &Tree,
    texts: &[Row<u8>],
) -> Result<Whole, AllocError>
    requires spans { AreSpans tree.now.file.now tree.now.tokens.now }
    requires first { IsRow table.old 0 unknown }
    ensures within { IfOk result (λ w. AreWithin table.new w.typing) }
    ensures typing { IfOk result (λ w. IsTyping tree.now texts.now table.new w.typing) }
    ensures marked { IfOk result (λ w. AreMarked table.new tree.now w.typing w.marked) }
    ensures broken { IfOk result (λ w. IsFirst (IsUnitBroken tree.now texts.now table.new w.typing w.marked) w.broken) }
    ensures grows { OnOk result (Grows table.old table.new) }
{
    let checked = check_nodes(alloc, table, tree, texts)?;
    let marked = marks_of(alloc, table, tree, &checked.typing);
    let (marked, checked) = holding(marked, checked)?;
    let statement = statement_fault(table, tree, &checked.typing, &marked);
    let (statement, (marked, checked)) = holding(statement, (marked, checked))?;
    Ok(Whole {
        broken: lesser(checked.broken, statement),
        typing: checked.typing,
        marked,
    })
}

fn marks_of(
    alloc: Global,
    table: &Table,
    tree: &Tree,
    typing: &Typing,
) -> Result<Marked, AllocError>
    requires { AreWithin table.now typing.now }
    ensures { IfOk result (λ m. AreMarked table.now tree.now typing.now m) }
{
    let labelled = labelled_of(tree, typing);
    let again = again(alloc, table, &labelled)?;
    let labels = labels(alloc, table, &labelled)?;
    let results = results(alloc, tree.nodes, typing.named.as_slice())?;
    Ok(Marked {
        results: Row::from_vec(results),
        again: Row::from_vec(again),
        labels: Row::from_vec(labels),
    })
}

fn labelled_of<'a>(tree: &'a Tree<'a>, typing: &'a Typing) -> Labelled<'a>
    ensures facts { result.facts.now ≡ typing.now.facts }
    ensures scene { (shapes : List shape.Shape) → labelled_scene shapes result ≡ labelled_in shapes tree.now typing.now }
{
    Labelled {
        nodes: tree.nodes,
        facts: typing.facts.as_slice(),
        around: tree.around,
        names: tree.names,
    }
}

fn results(alloc: Global, nodes: &[Node], named: &[u32]) -> Result<Vec<u32>, AllocError>
    ensures { IfOk result (λ rows. rows.items ≡ map (result_in named.now) nodes.now) }
{
    let mut rows = Vec::with_capacity(alloc, nodes.len())?;
    for node in nodes {
        rows.push(result_in(named, node))?;
    }
    Ok(rows)
}

// The row of what a function gives, which its whole declarator names.
fn result_in(named: &[u32], node: &Node) -> u32
    ensures { result ≡ result_in named.now node.now }
{
    if is_definition(node.kind) {
        named_row(named, part_at(node.parts.as_slice(), 1))
    } else {
        0
    }
}

fn is_definition(kind: Kind) -> bool
    ensures { result ≡ is_definition kind }
{
    match kind {
        Kind::FunctionDefinition => true,
        _ => false,
    }
}

fn named_row(named: &[u32], node: Option<u32>) -> u32
    ensures { result ≡ named_row named.now node }
{
    match node {
        Some(node) => entry_at(named, node as usize, 0),
        None => 0,
    }
}

#[tactic(auto, using(crate::proofs::Unit::results_within))]
fn statement_fault(
    table: &Table,
    tree: &Tree,
    typing: &Typing,
    marked: &Marked,
) -> Result<Option<Break>, AllocError>
    requires within { AreWithin table.now typing.now }
    requires marked { AreMarked table.now tree.now typing.now marked.now }
    ensures { IfOk result (λ b. IsFirst (IsBroken (scene_in table.now tree.now typing.now marked.now)) b) }
{
    let setting = setting_of(tree, typing, marked);
    check_statements(table, &setting)
}

fn setting_of<'a>(tree: &'a Tree<'a>, typing: &'a Typing, marked: &'a Marked) -> Setting<'a>
    ensures facts { result.facts.now ≡ typing.now.facts }
    ensures results { result.results.now ≡ marked.now.results }
    ensures scene { (shapes : List shape.Shape) → scene_of shapes result ≡ scene_in shapes tree.now typing.now marked.now }
{
    Setting {
        nodes: tree.nodes,
        facts: typing.facts.as_slice(),
        around: tree.around,
        results: marked.results.as_slice(),
        again: marked.again.as_slice(),
        labels: marked.labels.as_slice(),
    }
}
