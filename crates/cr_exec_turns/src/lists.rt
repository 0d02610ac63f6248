// Lists of items: blocks, the bodies of `switch`, the whole program (C11 6.8.2, 6.8.4.2, 6.8.6.1).
#![tactic(auto, using(crate::proofs::Turning::known_is, crate::proofs::Turning::last_is))]

ghost use Rattle.std.specs.Prelude.{◌≡◌, drop, slice_get};
ghost use Rattle.cr_meaning.specs.Turns.{item_at};
ghost use Rattle.cr_exec_turns.specs.Kept.{is_passed, resume_behind, resume_at, after_item, block_way, switch_way, program_way, Known};

use crate::cases::case_for;
use crate::held::Held;
use crate::ways::{body_way, last_of, operand};
use cr_exec_slices::{Fresh, Way};
use cr_ints::IntKind;
use cr_meaning::{Case, Target};

/// The item that a label stands on.
fn item_at(labels: &[Target], label: u32) -> Option<usize>
    ensures { result ≡ item_at labels.now label }
{
    for target in labels {
        if target.label == label {
            return Some(target.item);
        }
    }
    None
}

/// Whether the next item follows on an answer.
fn is_passed(done: &[Held], at: usize) -> bool
    ensures { result ≡ is_passed (slice_get done.now at) }
{
    matches!(done.get(at), Some(Held::Next))
}

/// At an item, as if those before it had been executed. The answers of such items stay where they stand, since a list may be long.
fn resume_behind(from: usize, done: &[Held], item: usize) -> Way
    ensures { result ≡ resume_behind from (drop from done.now) item }
{
    let mut count = from;
    let mut left = item;
    while left > 0 && is_passed(done, count) {
        count += 1;
        left -= 1;
    }
    Way::Resume(count, Fresh::Before(left))
}

fn resume_at(count: usize, done: &[Held], item: Option<usize>) -> Way
    ensures { result ≡ resume_at count done.now item }
{
    match item {
        Some(item) => resume_behind(count, done, item),
        None => Way::Ready,
    }
}

/// After an item the next one, and after a jump to a label of the list the item with the label; everything else leaves.
fn after_item(
    count: usize,
    items: &[u32],
    labels: &[Target],
    done: &[Held],
    at: usize,
    last: &Held,
) -> Way
    ensures { result ≡ after_item count items.now labels.now done.now at last.now }
{
    match last {
        Held::Next => operand(items, at),
        Held::Jumped(label) => resume_at(count, done, item_at(labels, *label)),
        _ => Way::Ready,
    }
}

pub(crate) fn block_way(items: &[u32], labels: &[Target], done: &[Held]) -> Way
    ensures { result ≡ block_way items.now labels.now done.now }
{
    match done {
        [] => Way::Resume(0, Fresh::Before(0)),
        [entry, rest @ ..] => after_item(0, items, labels, done, rest.len(), last_of(entry, rest)),
    }
}

fn behind_first(parts: &[u32]) -> &[u32]
    ensures { result.now ≡ drop 1 parts.now }
{
    match parts {
        [_, items @ ..] => items,
        [] => parts,
    }
}

pub(crate) fn switch_way(
    kind: IntKind,
    parts: &[u32],
    cases: &[Case],
    other: Option<usize>,
    labels: &[Target],
    done: &[Held],
) -> Way
    ensures { Known (switch_way kind parts.now cases.now other labels.now done.now) result }
{
    match done {
        [] => operand(parts, 0),
        [control] => match case_for(kind, cases, other, control) {
            Some(item) => resume_at(1, done, item),
            None => Way::Unknown,
        },
        [_, entry, rest @ ..] => after_item(
            1,
            behind_first(parts),
            labels,
            done,
            rest.len(),
            last_of(entry, rest),
        ),
    }
}

pub(crate) fn program_way(parts: &[u32], body: u32, done: &[Held]) -> Way
    ensures { result ≡ program_way parts.now body done.now }
{
    match done {
        [] => Way::Resume(0, Fresh::Before(0)),
        [_, rest @ ..] => body_way(parts, body, rest.len()),
    }
}
