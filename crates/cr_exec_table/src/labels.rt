ghost use Rattle.std.specs.Prelude.{◌≡◌, ◌++◌, true, IfOk, OnOk, length, map};
ghost use Rattle.cr_meaning_operations.specs.Operations.{labelled, case_of, target_of, cases_by, has_default_by, marks_by, cases_from, default_from, targets_from};
ghost use Rattle.cr_exec_table.specs.Labels.{default_after, IsAdded};

use crate::work::{constant_at, value_or};
use cr_exec_shapes::Types;
use cr_meaning::{Case, Target};
use cr_syntax::Kind;
use std::alloc::{AllocError, Global};

/// The labels before the items of a block.
#[derive(Drop)]
pub(crate) struct Labels {
    pub(crate) cases: Vec<Case>,
    /// The first item with `default`.
    pub(crate) default: Option<usize>,
    pub(crate) targets: Vec<Target>,
}

/// The labels before items, which are numbered from 0.
pub(crate) fn labels_before(
    alloc: Global,
    types: &Types,
    items: &[u32],
) -> Result<Labels, AllocError>
    ensures cases { IfOk result (λ labels. labels.cases.items ≡ cases_from types.now 0 items.now) }
    ensures default { IfOk result (λ labels. labels.default ≡ default_from types.now 0 items.now) }
    ensures targets { IfOk result (λ labels. labels.targets.items ≡ targets_from types.now 0 items.now) }
{
    let mut labels = Labels {
        cases: Vec::new(alloc),
        default: None,
        targets: Vec::new(alloc),
    };
    for number in 0..items.len() {
        add(types, number, items[number], &mut labels)?;
    }
    Ok(labels)
}

// The labels before an item. They end at what is no label; a chain is never longer than the unit.
fn add(types: &Types, number: usize, item: u32, labels: &mut Labels) -> Result<(), AllocError>
    ensures cases { OnOk result (labels.new.cases.items
        ≡ labels.old.cases.items ++ map (case_of number) (cases_by (length types.now.nodes) types.now item)) }
    ensures default { OnOk result (labels.new.default
        ≡ default_after labels.old.default (has_default_by (length types.now.nodes) types.now item) number) }
    ensures targets { OnOk result (labels.new.targets.items
        ≡ labels.old.targets.items ++ map (target_of number) (marks_by (length types.now.nodes) types.now item)) }
{
    let mut at = item;
    let mut left = types.count();
    while left > 0 {
        let label = add_one(types, number, at, labels)?;
        if label {
            at = labelled(types, at);
            left -= 1;
        } else {
            return Ok(());
        }
    }
    Ok(())
}

// One label; false where the node is none.
fn add_one(types: &Types, number: usize, node: u32, labels: &mut Labels) -> Result<bool, AllocError>
    ensures { IfOk result (λ label. IsAdded types.now number node labels.old labels.new label) }
{
    match types.kind(node) {
        Kind::Case => {
            let constant = value_or(constant_at(types, types.part(node, 0)));
            labels.cases.push(Case {
                constant,
                item: number,
            })?;
            Ok(true)
        }
        Kind::Default => {
            labels.default = first_of(labels.default, number);
            Ok(true)
        }
        Kind::Label => {
            labels.targets.push(Target {
                label: node,
                item: number,
            })?;
            Ok(true)
        }
        _ => Ok(false),
    }
}

fn first_of(default: Option<usize>, number: usize) -> Option<usize>
    ensures { result ≡ default_after default true number }
{
    match default {
        Some(first) => Some(first),
        None => Some(number),
    }
}

/// The statement behind a label (C11 6.8.1).
pub(crate) fn labelled(types: &Types, node: u32) -> u32
    ensures { result ≡ labelled types.now node }
{
    match types.kind(node) {
        Kind::Case => types.part(node, 1),
        _ => types.part(node, 0),
    }
}
