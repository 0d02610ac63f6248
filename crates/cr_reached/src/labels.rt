// The labels of a unit.
ghost use Rattle.std.specs.Prelude.{◌≡◌, ◌&&◌, ℕ, false, true, slice_get};
ghost use Rattle.cr_meaning_operations.specs.Operations.{is_mark};
ghost use Rattle.cr_reached.specs.Own.{is_set};
ghost use Rattle.cr_reached.specs.Reached.{IsLabel, first_label, is_named, is_named_if};
ghost use Rattle.cr_syntax.specs.Words.{AreSpans};

use crate::whole::is_set;
use cr_syntax::{Kind, Node, spelling_at};
use cr_typed::Typed;

fn is_label(kind: Kind) -> bool
    ensures { result ≡ is_mark kind }
{
    matches!(kind, Kind::Label)
}

fn is_named(typed: &Typed, name: &[u8], node: &Node) -> bool
    requires { AreSpans typed.now.file typed.now.tokens }
    ensures { result ≡ is_named typed.now name.now node.now }
{
    let tokens = typed.tokens.as_slice();
    let spelling = spelling_at(typed.file.as_slice(), tokens, node.first as usize);
    is_label(node.kind) && spelling == name
}

/// Whether a node is a label of a name.
fn is_named_at(typed: &Typed, name: &[u8], node: usize) -> bool
    requires { AreSpans typed.now.file typed.now.tokens }
    ensures { result ≡ is_named_if typed.now name.now (slice_get typed.now.nodes node) }
{
    match typed.nodes.as_slice().get(node) {
        Some(node) => is_named(typed, name, node),
        None => false,
    }
}

/// The first label of a name; where there is none, the number of nodes.
pub(crate) fn first_label(typed: &Typed, name: &[u8]) -> usize
    requires { AreSpans typed.now.file typed.now.tokens }
    ensures { result ≡ first_label typed.now name.now }
{
    let count = typed.nodes.len();
    for node in 0..count {
        if is_named_at(typed, name, node) {
            return node;
        }
    }
    count
}

fn is_set_label(typed: &Typed, name: &[u8], column: &[bool], node: usize) -> bool
    requires { AreSpans typed.now.file typed.now.tokens }
    ensures { result ≡ (is_set column.now node && is_named_if typed.now name.now (slice_get typed.now.nodes node)) }
{
    is_set(column, node) && is_named_at(typed, name, node)
}

/// Whether one of the labels of a name is marked.
pub(crate) fn is_one_set(typed: &Typed, name: &[u8], column: &[bool]) -> bool
    requires { AreSpans typed.now.file typed.now.tokens }
    ensures some { result ≡ true → (label : ℕ) × IsLabel typed.now name.now label × (is_set column.now label ≡ true) }
    ensures none { result ≡ false → (label : ℕ) → IsLabel typed.now name.now label → is_set column.now label ≡ true → ⊥ }
{
    for node in 0..column.len() {
        if is_set_label(typed, name, column, node) {
            return true;
        }
    }
    false
}
