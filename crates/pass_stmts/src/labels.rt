// The level of pass s for labels.
ghost use Rattle.std.specs.Prelude.{◌≡◌, ◌++◌, length, IfOk, OnOk};
ghost use Rattle.std.specs.HashSet.{contains};
ghost use Rattle.std.specs.List.{list_any};
ghost use Rattle.pass_levels.specs.Level.{level_of};
ghost use Rattle.pass_levels.specs.Nodes.{node_at};
ghost use Rattle.pass_stmts.specs.Labels.{AreNamed, counting, function_at, functions_of, jump_by, jumps_of, label_goes, labels_give, names_label, same_label};

use cr_rows::Row;
use cr_syntax::{Kind, Node};
use cr_tokens::Token;
use pass_edit::Edits;
use pass_levels::{Counted, Level, gone, kind_at, list, span_at, spelling_at};
use std::alloc::{AllocError, Global};
use std::collections::HashSet;

/// What a `goto` names: the token of a label, and the function in which it stands, by its number.
#[derive(Clone, Copy, Drop)]
pub struct Jump {
    pub function: u32,
    pub label: usize,
}

// Each label that no `goto` of its function names goes. What they name is looked for in a set.
#[derive(Drop)]
struct LabelsGo<'a, 'b> {
    file: &'a [u8],
    tokens: &'b [Token],
    nodes: &'b [Node],
    functions: &'b [u32],
    jumps: &'b [Jump],
    named: &'b HashSet<(u32, &'a [u8])>,
    ghost set: { AreNamed file.now tokens.now jumps.now (contains same_label named.now) },
}

impl Level for LabelsGo<'_, '_> {
    ghost gives = { λ l k. labels_give l.file.now l.tokens.now l.nodes.now l.functions.now l.jumps.now k };

    fn give(&self, alloc: Global, node: usize, all: &mut Vec<Counted>) -> Result<(), AllocError> {
        match kind_at(self.nodes, node) {
            Kind::Label => put_label(alloc, self, node, all),
            _ => Ok(()),
        }
    }
}

// Only at a label the jumps are gone through.
fn put_label(
    alloc: Global,
    source: &LabelsGo,
    node: usize,
    all: &mut Vec<Counted>,
) -> Result<(), AllocError>
    requires { (node_at source.now.nodes.now node).kind ≡ Kind.Label }
    ensures { OnOk result (all.new.items ≡ all.old.items ++ labels_give source.now.file.now source.now.tokens.now source.now.nodes.now source.now.functions.now source.now.jumps.now node) }
{
    let (first, _) = span_at(source.nodes, node);
    let function = function_at(source.functions, node);
    if !is_named(source, function, first as usize) {
        all.push(label_goes(alloc, source.tokens, source.nodes, node)?)?;
    }
    Ok(())
}

fn label_goes(
    alloc: Global,
    tokens: &[Token],
    nodes: &[Node],
    node: usize,
) -> Result<Counted, AllocError>
    ensures { IfOk result (λ counted. counted ≡ label_goes tokens.now (node_at nodes.now node)) }
{
    let (first, last) = span_at(nodes, node);
    let mut edit = Row::new(alloc);
    edit.push(gone(tokens, first as usize, first as usize + 1))?;
    Ok(Counted { first, last, edit })
}

fn is_named(source: &LabelsGo, function: u32, label: usize) -> bool
    ensures { result ≡ list_any (names_label source.now.file.now source.now.tokens.now function label) source.now.jumps.now }
{
    let bytes = spelling_at(source.file, source.tokens, label);
    source.named.contains(&(function, bytes))
}

// What all `goto`s name.
fn named_by<'a>(
    alloc: Global,
    file: &'a [u8],
    tokens: &[Token],
    jumps: &[Jump],
) -> Result<HashSet<(u32, &'a [u8])>, AllocError>
    ensures { IfOk result (λ named. AreNamed file.now tokens.now jumps.now (contains same_label named)) }
{
    let mut named = HashSet::new(alloc);
    for jump in jumps {
        named.insert((jump.function, spelling_at(file, tokens, jump.label)))?;
    }
    Ok(named)
}

fn function_at(functions: &[u32], node: usize) -> u32
    ensures { result ≡ function_at functions.now node }
{
    match functions.get(node) {
        Some(function) => *function,
        None => 0,
    }
}

// For each node the number of its function.
fn functions_of(alloc: Global, nodes: &[Node]) -> Result<Vec<u32>, AllocError>
    ensures { IfOk result (λ functions. functions.items ≡ functions_of nodes.now) }
{
    let mut functions = Vec::new(alloc);
    let mut count = 0;
    for node in nodes {
        functions.push(count)?;
        count = counting(node.kind, count)?;
    }
    Ok(functions)
}

fn counting(kind: Kind, count: u32) -> Result<u32, AllocError>
    ensures { IfOk result (λ next. next ≡ counting kind count) }
{
    match kind {
        Kind::FunctionDefinition => count.checked_add(1).ok_or(AllocError),
        _ => Ok(count),
    }
}

fn jumps_of(alloc: Global, nodes: &[Node], functions: &[u32]) -> Result<Vec<Jump>, AllocError>
    ensures { IfOk result (λ jumps. jumps.items ≡ jumps_of nodes.now functions.now) }
{
    let mut jumps = Vec::new(alloc);
    for node in 0..nodes.len() {
        let (first, _) = span_at(nodes, node);
        put_jump(
            kind_at(nodes, node),
            function_at(functions, node),
            first,
            &mut jumps,
        )?;
    }
    Ok(jumps)
}

fn put_jump(kind: Kind, function: u32, first: u32, jumps: &mut Vec<Jump>) -> Result<(), AllocError>
    ensures { OnOk result (jumps.new.items ≡ jumps.old.items ++ jump_by kind function first) }
{
    match kind {
        Kind::Goto => jumps.push(Jump {
            function,
            label: first as usize + 1,
        })?,
        _ => {}
    }
    Ok(())
}

/// The edits by which each label that no `goto` of its function names goes with its `:`. The error is want of memory.
pub fn labels_go(
    alloc: Global,
    file: &[u8],
    tokens: &[Token],
    nodes: &[Node],
) -> Result<Edits, AllocError>
    ensures { IfOk result (λ edits. edits ≡ level_of (labels_give file.now tokens.now nodes.now (functions_of nodes.now) (jumps_of nodes.now (functions_of nodes.now))) (length nodes.now)) }
{
    let functions = functions_of(alloc, nodes)?;
    let jumps = jumps_of(alloc, nodes, functions.as_slice())?;
    let named = named_by(alloc, file, tokens, jumps.as_slice())?;
    list(
        alloc,
        nodes.len(),
        &LabelsGo {
            file,
            tokens,
            nodes,
            functions: functions.as_slice(),
            jumps: jumps.as_slice(),
            named: &named,
        },
    )
}
