// The marks of labels.
ghost use Rattle.std.specs.Prelude.{◌≡◌, ◌<◌, ℕ, length, slice_get};
ghost use Rattle.cr_check_types.specs.Types.{Qualified};
ghost use Rattle.cr_check_operands.specs.Values.{valued_by};
ghost use Rattle.cr_check_expressions.specs.Ruled.{AreFacts};
ghost use Rattle.cr_check_labels.specs.Labelled.{scene_of};
ghost use Rattle.cr_check_labels.specs.Marks.{case_at as case_of, case_by, case_in, constant_value, control_of, default_at as default_of, label_if, named_in, value_for, with_value};

use crate::labelled::{Labelled, around_at, name_at};
use cr_check_constants::{Constant, cast};
use cr_check_expressions::operand;
use cr_check_operands::{Value, value_of};
use cr_check_types::Table;
use cr_ints::promote;
use cr_syntax::{Kind, Node, parts_at};

fn constant_value(constant: Constant) -> Option<i128>
    ensures { result ≡ constant_value constant }
{
    match constant {
        Constant::Value(value) => Some(value),
        Constant::Undefined => None,
        Constant::NotConstant => None,
    }
}

fn value_for(control: Value, label: Value) -> Option<i128>
    ensures { (look : ℕ → Qualified) → result ≡ value_for (valued_by look control) (valued_by look label) }
{
    match control {
        Value::Integer(control) => match label {
            Value::Integer(label) => {
                constant_value(cast(promote(control.kind), label.constant).constant)
            }
            _ => None,
        },
        _ => None,
    }
}

fn with_value(owner: u32, value: Option<i128>) -> Option<(u32, i128)>
    ensures { result ≡ with_value owner value }
{
    match value {
        Some(value) => Some((owner, value)),
        None => None,
    }
}

fn case_in(
    table: &Table,
    labelled: &Labelled,
    switch: Option<u32>,
    node: &Node,
) -> Option<(u32, i128)>
    requires { AreFacts table.now labelled.now.facts.now }
    ensures { result ≡ case_in (scene_of table.now labelled.now) switch node.now }
{
    match switch {
        Some(switch) => {
            let parts = parts_at(labelled.nodes, switch as usize);
            let control = value_of(table, operand(table, labelled.facts, parts, 0));
            let label = value_of(
                table,
                operand(table, labelled.facts, node.parts.as_slice(), 0),
            );
            with_value(switch, value_for(control, label))
        }
        None => None,
    }
}

fn case_by(table: &Table, labelled: &Labelled, at: usize, node: &Node) -> Option<(u32, i128)>
    requires { AreFacts table.now labelled.now.facts.now }
    ensures { result ≡ case_by node.now.kind (scene_of table.now labelled.now) at node.now }
{
    match node.kind {
        Kind::Case => case_in(table, labelled, around_at(labelled, at).switch, node),
        _ => None,
    }
}

/// A `case` by its `switch` and its value.
pub(crate) fn case_at(table: &Table, labelled: &Labelled, at: usize) -> Option<(u32, i128)>
    requires { AreFacts table.now labelled.now.facts.now }
    ensures { result ≡ case_of (scene_of table.now labelled.now) at }
{
    if at < labelled.nodes.len() {
        case_by(table, labelled, at, &labelled.nodes[at])
    } else {
        None
    }
}

/// A `default` by its `switch`.
pub(crate) fn default_at(table: &Table, labelled: &Labelled, at: usize) -> Option<u32>
    ensures { result ≡ default_of (scene_of table.now labelled.now) at }
{
    if at < labelled.nodes.len() {
        match labelled.nodes[at].kind {
            Kind::Default => around_at(labelled, at).switch,
            _ => None,
        }
    } else {
        None
    }
}

fn named_in(owner: Option<u32>, name: u32) -> Option<(u32, u32)>
    ensures { result ≡ named_in owner name }
{
    match owner {
        Some(owner) => Some((owner, name)),
        None => None,
    }
}

/// A label by what owns it, and its name.
pub(crate) fn label_at(
    table: &Table,
    labelled: &Labelled,
    owner: Option<u32>,
    at: usize,
) -> Option<(u32, u32)>
    ensures { result ≡ label_if (slice_get labelled.now.nodes.now at) (scene_of table.now labelled.now) owner }
{
    if at < labelled.nodes.len() {
        match labelled.nodes[at].kind {
            Kind::Label => named_in(owner, name_at(labelled, labelled.nodes[at].first)),
            _ => None,
        }
    } else {
        None
    }
}
