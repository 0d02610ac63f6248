// Selection and iteration (C11 6.8.4, 6.8.5).
#![tactic(auto, using(crate::proofs::Turning::known_is, crate::proofs::Turning::last_is))]

ghost use Rattle.std.specs.Prelude.{◌≡◌};
ghost use Rattle.cr_exec_turns.specs.Kept.{begin_way, if_way, while_way, do_way, for_way};

use crate::held::Held;
use crate::ways::{choose, entering, goes_on, on, operand, operand_or, truth_in};
use cr_exec_slices::{Fresh, Way};

pub(crate) fn if_way(parts: &[u32], done: &[Held]) -> Way
    ensures { result ≡ if_way parts.now done.now }
{
    match done {
        [] => operand(parts, 0),
        [control] => choose(truth_in(control), entering(parts, 1), entering(parts, 2)),
        _ => Way::Ready,
    }
}

pub(crate) fn while_way(parts: &[u32], done: &[Held]) -> Way
    ensures { result ≡ while_way parts.now done.now }
{
    match done {
        [] => operand(parts, 0),
        [control] => choose(truth_in(control), entering(parts, 1), Way::Ready),
        [_, body, ..] => on(goes_on(body), Way::Resume(0, Fresh::Nothing)),
    }
}

pub(crate) fn do_way(parts: &[u32], done: &[Held]) -> Way
    ensures { result ≡ do_way parts.now done.now }
{
    match done {
        [] => operand(parts, 0),
        [body] => on(goes_on(body), operand(parts, 1)),
        [_, control, ..] => choose(
            truth_in(control),
            Way::Resume(0, Fresh::Nothing),
            Way::Ready,
        ),
    }
}

fn begin_way(first: Option<u32>) -> Way
    ensures { result ≡ begin_way first }
{
    match first {
        Some(first) => Way::Enter(first),
        None => Way::Resume(0, Fresh::Absent),
    }
}

pub(crate) fn for_way(
    first: Option<u32>,
    control: Option<u32>,
    step: Option<u32>,
    body: u32,
    done: &[Held],
) -> Way
    ensures { result ≡ for_way first control step body done.now }
{
    match done {
        [] => begin_way(first),
        [_] => operand_or(control, 1, Fresh::Absent),
        [_, asked] => choose(truth_in(asked), Way::Enter(body), Way::Ready),
        [_, _, executed] => on(goes_on(executed), operand_or(step, 1, Fresh::Nothing)),
        _ => Way::Resume(1, Fresh::Nothing),
    }
}
