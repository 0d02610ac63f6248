// What was checked of a unit's nodes, as the columns that a typed unit is made of.
ghost use Rattle.std.specs.Prelude.{◌≡◌, ◌<◌, ◌^◌, ℕ, List, IfOk, OnOk, length};
ghost use Rattle.cr_check_declarations.specs.declared.tree.Tree as tree;
ghost use Rattle.cr_check_surroundings.specs.Surroundings.{IsTree};
ghost use Rattle.cr_typed_unit.specs.Made.{statics_in};
ghost use Rattle.cr_typed_unit.specs.Typed.{AreColumnsOf};

use cr_check::Checked;
use cr_check_declarations::{Columns, Tree};
use cr_check_initialised::is_static;
use cr_check_surroundings::Surroundings;
use cr_check_types::Table;
use cr_check_unit::{Typing, Whole};
use cr_scopes::Names;
use cr_syntax::{Unit, number_of};
use cr_typed_columns::CheckedColumns;
use std::alloc::{AllocError, Global};

/// The columns of what was checked.
pub(crate) fn checked_columns<'a>(
    names: &'a Names,
    surroundings: &'a Surroundings,
    table: &'a Table,
    whole: &'a Whole,
    statics: &'a [bool],
) -> CheckedColumns<'a>
    ensures table { result.table.now ≡ table.now }
    ensures columns { (texts : List (List ℕ)) (t : tree.Tree) → statics.now ≡ statics_in t whole.now.typing.specified → AreColumnsOf names.now (record { surroundings = surroundings.now; texts = texts; table = table.now; whole = whole.now }) t result }
{
    let typing = &whole.typing;
    CheckedColumns {
        table,
        names,
        spellings: surroundings.bindings.spellings.as_slice(),
        declarers: surroundings.bindings.declarers.as_slice(),
        above: surroundings.above.as_slice(),
        around: surroundings.around.as_slice(),
        facts: typing.facts.as_slice(),
        specified: typing.specified.as_slice(),
        declarators: typing.declarators.as_slice(),
        named: typing.named.as_slice(),
        declared: typing.declared.as_slice(),
        composites: typing.composites.as_slice(),
        statics,
        members: typing.members.as_slice(),
        layouts: typing.layouts.as_slice(),
        lines: typing.lines.as_slice(),
        results: whole.marked.results.as_slice(),
        labels: whole.marked.labels.as_slice(),
    }
}

fn columns_of<'a>(typing: &'a Typing) -> Columns<'a>
    ensures { result.specified.now ≡ typing.now.specified }
{
    Columns {
        facts: typing.facts.as_slice(),
        specified: typing.specified.as_slice(),
        named: typing.named.as_slice(),
        declarators: typing.declarators.as_slice(),
        derivations: typing.derivations.as_slice(),
        declared: typing.declared.as_slice(),
        parameters: typing.parameters.as_slice(),
        members: typing.members.as_slice(),
        layouts: typing.layouts.as_slice(),
        fixed: typing.fixed.as_slice(),
        enumerated: typing.enumerated.as_slice(),
    }
}

#[tactic(auto, using(crate::proofs::Statics::one_more))]
fn statics(alloc: Global, tree: &Tree, columns: &Columns) -> Result<Vec<bool>, AllocError>
    ensures column { IfOk result (λ column. column.items ≡ statics_in tree.now columns.now.specified.now) }
    ensures few { OnOk result (length tree.now.nodes.now < 2 ^ 32) }
{
    let count = number_of(tree.nodes.len())?;
    let mut column = Vec::new(alloc);
    for at in 0..count {
        column.push(is_static(tree, columns, Some(at)))?;
    }
    Ok(column)
}

/// Whether the object that each node declares is of static duration, by any tree of the unit, whose nodes have numbers.
#[tactic(auto, using(crate::proofs::Statics::of_any_tree))]
pub(crate) fn statics_of(
    alloc: Global,
    file: &[u8],
    unit: &Unit,
    checked: &Checked,
) -> Result<Vec<bool>, AllocError>
    ensures column { IfOk result (λ column. (t : tree.Tree) → IsTree file.now unit.now checked.now.surroundings t → column.items ≡ statics_in t checked.now.whole.typing.specified) }
    ensures few { OnOk result (length unit.now.nodes < 2 ^ 32) }
{
    let tree = checked.surroundings.tree(file, unit);
    let columns = columns_of(&checked.whole.typing);
    statics(alloc, &tree, &columns)
}
