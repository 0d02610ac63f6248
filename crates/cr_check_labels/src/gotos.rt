// The labels that `goto`s name.
ghost use Rattle.std.specs.Prelude.{◌≡◌, ◌+◌, ℕ, None, Some, IfOk, OnOk, length, slice_get, if◌then◌else◌};
ghost use Rattle.std.specs.List.{list_any};
ghost use Rattle.std.specs.HashMap.{get};
ghost use Rattle.cr_check_labels.specs.Again.{same_name};
ghost use Rattle.cr_check_labels.specs.Gotos.{found_from, goto_at as goto_of, is_key, item_label as item_label_of, last_labelled, AreLabels};
ghost use Rattle.cr_check_labels.specs.Labelled.{scene_of};
ghost use Rattle.cr_check_labels.specs.Kinds.{is_goto};

use crate::labelled::{Labelled, around_at, name_at};
use crate::marks::label_at;
use cr_check_types::Table;
use cr_syntax::{Kind, Node, number_of};
use std::alloc::{AllocError, Global};
use std::collections::HashMap;

// A label by the compound statement that it is on an item of, and its name.
fn item_label(table: &Table, labelled: &Labelled, at: usize) -> Option<(u32, u32)>
    ensures { result ≡ item_label_of (scene_of table.now labelled.now) at }
{
    let block = around_at(labelled, at).block;
    label_at(table, labelled, block, at)
}

fn keep(
    held: &mut HashMap<(u32, u32), u32>,
    key: Option<(u32, u32)>,
    number: u32,
) -> Result<(), AllocError>
    ensures { OnOk result ((q : ℕ × ℕ) → get same_name held.new q ≡ (if is_key key q then Some number else get same_name held.old q)) }
{
    match key {
        Some(key) => {
            held.insert(key, number)?;
            Ok(())
        }
        None => Ok(()),
    }
}

// The labels of all compound statements.
fn item_labels(
    alloc: Global,
    table: &Table,
    labelled: &Labelled,
) -> Result<HashMap<(u32, u32), u32>, AllocError>
    ensures { IfOk result (λ held. (q : ℕ × ℕ) → get same_name held q ≡ last_labelled (scene_of table.now labelled.now) (length labelled.now.nodes.now) q) }
{
    let mut held = HashMap::new(alloc);
    for at in 0..labelled.nodes.len() {
        let number = number_of(at)?;
        keep(&mut held, item_label(table, labelled, at), number)?;
    }
    Ok(held)
}

#[tactic(auto, using(crate::proofs::Outwards::goes_out, crate::proofs::Outwards::finds, crate::proofs::Outwards::ends_outside))]
fn found(
    table: &Table,
    labelled: &Labelled,
    held: &HashMap<(u32, u32), u32>,
    block: Option<u32>,
    name: u32,
) -> Option<u32>
    requires { (q : ℕ × ℕ) → get same_name held.now q ≡ last_labelled (scene_of table.now labelled.now) (length labelled.now.nodes.now) q }
    ensures { result ≡ found_from (scene_of table.now labelled.now) (length labelled.now.nodes.now) block name }
{
    let mut inner = block;
    let mut left = labelled.nodes.len();
    while left > 0 {
        left -= 1;
        match inner {
            Some(block) => match held.get(&(block, name)).copied() {
                Some(label) => return Some(label),
                None => inner = around_at(labelled, block as usize).block,
            },
            None => return None,
        }
    }
    None
}

fn goto_at(
    table: &Table,
    labelled: &Labelled,
    held: &HashMap<(u32, u32), u32>,
    at: usize,
) -> Result<Option<u32>, AllocError>
    requires { (q : ℕ × ℕ) → get same_name held.now q ≡ last_labelled (scene_of table.now labelled.now) (length labelled.now.nodes.now) q }
    ensures { IfOk result (λ label. label ≡ goto_of (scene_of table.now labelled.now) at) }
{
    if at >= labelled.nodes.len() {
        return Ok(None);
    }
    match labelled.nodes[at].kind {
        Kind::Goto => {
            let word = labelled.nodes[at].first;
            let token = word.checked_add(1).ok_or(AllocError)?;
            let block = around_at(labelled, at).block;
            Ok(found(table, labelled, held, block, name_at(labelled, token)))
        }
        _ => Ok(None),
    }
}

fn is_goto(kind: Kind) -> bool
    ensures { result ≡ is_goto kind }
{
    match kind {
        Kind::Goto => true,
        _ => false,
    }
}

// Whether there is any `goto`; most units have none.
fn has_gotos(nodes: &[Node]) -> bool
    ensures { result ≡ list_any (λ n. is_goto n.kind) nodes.now }
{
    nodes.iter().any(|node| is_goto(node.kind))
}

/// For each `goto` the label that it names: the one of its name on an item of the innermost compound statement around it that has one;
/// None where there is none (C11 6.8.6.1p1). The error is want of memory.
#[tactic(auto, using(cr_rows::proofs::Columns::one_more))]
pub fn labels(
    alloc: Global,
    table: &Table,
    labelled: &Labelled,
) -> Result<Vec<Option<u32>>, AllocError>
    ensures { IfOk result (λ labels. AreLabels (scene_of table.now labelled.now) labels.items) }
{
    if !has_gotos(labelled.nodes) {
        let none = vec![in alloc; None; labelled.nodes.len()]?;
        return Ok(none);
    }
    let held = item_labels(alloc, table, labelled)?;
    let mut labels = Vec::with_capacity(alloc, labelled.nodes.len())?;
    for at in 0..labelled.nodes.len() {
        labels.push(goto_at(table, labelled, &held, at)?)?;
    }
    Ok(labels)
}
