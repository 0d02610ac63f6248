// Which labels repeat one that stands before them.
ghost use Rattle.std.specs.Prelude.{◌≡◌, ◌<◌, ◌||◌, ℕ, false, None, IfOk, length, slice_index_or};
ghost use Rattle.std.specs.List.{list_any};
ghost use Rattle.cr_check_expressions.specs.Ruled.{AreFacts};
ghost use Rattle.cr_check_labels.specs.Again.{is_repeated, same_name, same_owner, same_value, AreAgain};
ghost use Rattle.cr_check_labels.specs.Labelled.{scene_of};
ghost use Rattle.cr_check_labels.specs.Kinds.{is_label};
ghost use Rattle.cr_check_labels.specs.Marks.{case_at as case_of, default_at as default_of, label_at as label_of};
ghost use Rattle.cr_rows.specs.Columns.{AreOf};

use crate::labelled::{Labelled, around_at};
use crate::marks::{case_at, default_at, label_at};
use cr_check_enclosing::repeated;
use cr_check_types::Table;
use cr_rows::entry_at;
use cr_syntax::{Kind, Node};
use std::alloc::{AllocError, Global};

// A label by its function and its name.
fn function_label(table: &Table, labelled: &Labelled, at: usize) -> Option<(u32, u32)>
    ensures { result ≡ label_of (scene_of table.now labelled.now) at }
{
    let function = around_at(labelled, at).function;
    label_at(table, labelled, function, at)
}

fn case_marks(
    alloc: Global,
    table: &Table,
    labelled: &Labelled,
) -> Result<Vec<Option<(u32, i128)>>, AllocError>
    requires { AreFacts table.now labelled.now.facts.now }
    ensures { IfOk result (λ marks. AreOf (case_of (scene_of table.now labelled.now)) None (length labelled.now.nodes.now) marks.items) }
{
    let mut marks = Vec::with_capacity(alloc, labelled.nodes.len())?;
    for at in 0..labelled.nodes.len() {
        marks.push(case_at(table, labelled, at))?;
    }
    Ok(marks)
}

fn cases(alloc: Global, table: &Table, labelled: &Labelled) -> Result<Vec<bool>, AllocError>
    requires { AreFacts table.now labelled.now.facts.now }
    ensures { IfOk result (λ again. AreOf (is_repeated same_value (scene_of table.now labelled.now) (case_of (scene_of table.now labelled.now))) false (length labelled.now.nodes.now) again.items) }
{
    let marks = case_marks(alloc, table, labelled)?;
    let again = repeated(alloc, &marks, labelled.nodes)?;
    Ok(again)
}

fn default_marks(
    alloc: Global,
    table: &Table,
    labelled: &Labelled,
) -> Result<Vec<Option<u32>>, AllocError>
    ensures { IfOk result (λ marks. AreOf (default_of (scene_of table.now labelled.now)) None (length labelled.now.nodes.now) marks.items) }
{
    let mut marks = Vec::with_capacity(alloc, labelled.nodes.len())?;
    for at in 0..labelled.nodes.len() {
        marks.push(default_at(table, labelled, at))?;
    }
    Ok(marks)
}

fn defaults(alloc: Global, table: &Table, labelled: &Labelled) -> Result<Vec<bool>, AllocError>
    ensures { IfOk result (λ again. AreOf (is_repeated same_owner (scene_of table.now labelled.now) (default_of (scene_of table.now labelled.now))) false (length labelled.now.nodes.now) again.items) }
{
    let marks = default_marks(alloc, table, labelled)?;
    let again = repeated(alloc, &marks, labelled.nodes)?;
    Ok(again)
}

fn name_marks(
    alloc: Global,
    table: &Table,
    labelled: &Labelled,
) -> Result<Vec<Option<(u32, u32)>>, AllocError>
    ensures { IfOk result (λ marks. AreOf (label_of (scene_of table.now labelled.now)) None (length labelled.now.nodes.now) marks.items) }
{
    let mut marks = Vec::with_capacity(alloc, labelled.nodes.len())?;
    for at in 0..labelled.nodes.len() {
        marks.push(function_label(table, labelled, at))?;
    }
    Ok(marks)
}

fn names(alloc: Global, table: &Table, labelled: &Labelled) -> Result<Vec<bool>, AllocError>
    ensures { IfOk result (λ again. AreOf (is_repeated same_name (scene_of table.now labelled.now) (label_of (scene_of table.now labelled.now))) false (length labelled.now.nodes.now) again.items) }
{
    let marks = name_marks(alloc, table, labelled)?;
    let again = repeated(alloc, &marks, labelled.nodes)?;
    Ok(again)
}

fn either(one: bool, other: bool) -> bool
    ensures { result ≡ (one || other) }
{
    one || other
}

// What repeats one of the three.
fn any_of(
    alloc: Global,
    cases: &[bool],
    defaults: &[bool],
    names: &[bool],
) -> Result<Vec<bool>, AllocError>
    ensures count { IfOk result (λ again. length again.items ≡ length cases.now) }
    ensures each { IfOk result (λ again. (i : ℕ) → i < length cases.now → slice_index_or again.items i false ≡ (slice_index_or cases.now i false || (slice_index_or defaults.now i false || slice_index_or names.now i false))) }
{
    let mut again = Vec::with_capacity(alloc, cases.len())?;
    for at in 0..cases.len() {
        again.push(either(
            entry_at(cases, at, false),
            either(entry_at(defaults, at, false), entry_at(names, at, false)),
        ))?;
    }
    Ok(again)
}

fn is_label(kind: Kind) -> bool
    ensures { result ≡ is_label kind }
{
    match kind {
        Kind::Case | Kind::Default | Kind::Label => true,
        _ => false,
    }
}

// Whether there is any label; most units have none.
fn has_labels(nodes: &[Node]) -> bool
    ensures { result ≡ list_any (λ n. is_label n.kind) nodes.now }
{
    nodes.iter().any(|node| is_label(node.kind))
}

/// For each node whether it is a `case`, a `default` or a label that repeats one before it in the text, of its `switch` or its function: of two
/// cases the values count, after the conversion to the promoted type of the controlling expression (C11 6.8.4.2p3, p5). The error is
/// want of memory.
#[tactic(auto, using(crate::proofs::Columns::all_again))]
pub fn again(alloc: Global, table: &Table, labelled: &Labelled) -> Result<Vec<bool>, AllocError>
    requires { AreFacts table.now labelled.now.facts.now }
    ensures { IfOk result (λ again. AreAgain (scene_of table.now labelled.now) again.items) }
{
    if !has_labels(labelled.nodes) {
        let none = vec![in alloc; false; labelled.nodes.len()]?;
        return Ok(none);
    }
    let cases = cases(alloc, table, labelled)?;
    let defaults = defaults(alloc, table, labelled)?;
    let names = names(alloc, table, labelled)?;
    let again = any_of(alloc, &cases, &defaults, &names)?;
    Ok(again)
}
