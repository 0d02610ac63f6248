// Small steps of all kinds of nodes.
#![tactic(auto, using(crate::proofs::Turning::known_is, crate::proofs::Turning::last_is))]

ghost use Rattle.std.specs.Prelude.{◌≡◌, slice_get};
ghost use Rattle.cr_exec_turns.specs.Kept.{operand, entering, operand_or, choose, truth_in, goes_on, on, last_of, body_way};

use crate::held::Held;
use cr_eval_join::truth_of;
use cr_exec_slices::{Fresh, Way};

/// With a part, if it is there.
#[inline]
pub(crate) fn operand(parts: &[u32], place: usize) -> Way
    ensures { result ≡ operand (slice_get parts.now place) }
{
    match parts.get(place) {
        Some(node) => Way::Operand(*node),
        None => Way::Ready,
    }
}

/// With a part after work before it, if it is there.
pub(crate) fn entering(parts: &[u32], place: usize) -> Way
    ensures { result ≡ entering (slice_get parts.now place) }
{
    match parts.get(place) {
        Some(node) => Way::Enter(*node),
        None => Way::Ready,
    }
}

/// With a part, or as if it had answered.
pub(crate) fn operand_or(part: Option<u32>, count: usize, fresh: Fresh) -> Way
    ensures { result ≡ operand_or part count fresh }
{
    match part {
        Some(node) => Way::Operand(node),
        None => Way::Resume(count, fresh),
    }
}

/// The one way where a control is true, the other where it is false. Without a value the case is in the node's work.
pub(crate) fn choose(truth: Option<bool>, one: Way, other: Way) -> Way
    ensures { result ≡ choose truth one other }
{
    match truth {
        Some(true) => one,
        Some(false) => other,
        None => Way::Ready,
    }
}

/// The truth of a controlling expression's answer.
#[inline]
pub(crate) fn truth_in(held: &Held) -> Option<bool>
    ensures { result ≡ truth_in held.now }
{
    match held {
        Held::Part(part) => truth_of(&part.value),
        _ => None,
    }
}

/// Whether a loop goes on behind its body (C11 6.8.6.2p2).
pub(crate) fn goes_on(held: &Held) -> bool
    ensures { result ≡ goes_on held.now }
{
    match held {
        Held::Next | Held::Continued => true,
        _ => false,
    }
}

pub(crate) fn on(goes: bool, way: Way) -> Way
    ensures { result ≡ on goes way }
{
    if goes { way } else { Way::Ready }
}

/// The last answer of some.
#[inline]
pub(crate) fn last_of<'a>(first: &'a Held, rest: &'a [Held]) -> &'a Held
    ensures { result.now ≡ last_of first.now rest.now }
{
    if rest.is_empty() {
        first
    } else {
        &rest[rest.len() - 1]
    }
}

/// Behind all parts the body of a function (6.5.2.2p10).
pub(crate) fn body_way(parts: &[u32], body: u32, count: usize) -> Way
    ensures { result ≡ body_way parts.now body count }
{
    if count == parts.len() {
        Way::Enter(body)
    } else {
        operand(parts, count)
    }
}
