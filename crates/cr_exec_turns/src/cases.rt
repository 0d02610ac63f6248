// The cases of a `switch` (C11 6.8.4.2p5).
#![tactic(auto, using(crate::proofs::Turning::known_is, crate::proofs::Turning::last_is))]

ghost use Rattle.std.specs.Prelude.{◌≡◌, IfSome};
ghost use Rattle.cr_ints.specs.Conversions.{convert_of};
ghost use Rattle.cr_exec_turns.specs.Kept.{is_case, value_case, case_for};

use crate::held::Held;
use cr_eval::integer;
use cr_ints::{IntKind, convert};
use cr_meaning::{Case, Value};

/// A number in a kind, if it is some integer type's.
fn in_kind(kind: IntKind, number: i128) -> Option<i128>
    ensures { IfSome result (λ value. value ≡ convert_of number kind) }
{
    match integer(&Value::Number(kind, number)) {
        Ok(number) => Some(convert(number, kind)),
        Err(_) => None,
    }
}

/// Whether a case has the number of a value, in a kind; nothing where a constant or the number is no integer type's.
fn case_is(kind: IntKind, case: &Case, control: &Value) -> Option<bool>
    ensures { IfSome result (λ b. b ≡ is_case kind case.now control.now) }
{
    let Value::Number(_, number) = control else {
        return Some(false);
    };
    let constant = in_kind(kind, case.constant)?;
    let value = in_kind(kind, *number)?;
    Some(constant <= value && value <= constant)
}

/// The item of the case with a value, or that of `default`; nothing where it can't be told.
fn value_case(
    kind: IntKind,
    cases: &[Case],
    other: Option<usize>,
    control: &Value,
) -> Option<Option<usize>>
    ensures { IfSome result (λ item. item ≡ value_case kind cases.now other control.now) }
{
    let Value::Number(_, _) = control else {
        return Some(None);
    };
    for case in cases {
        let Some(is_case) = case_is(kind, case, control) else {
            return None;
        };
        if is_case {
            return Some(Some(case.item));
        }
    }
    Some(other)
}

/// The item for the answer of the controlling expression; nothing where it can't be told.
pub(crate) fn case_for(
    kind: IntKind,
    cases: &[Case],
    other: Option<usize>,
    control: &Held,
) -> Option<Option<usize>>
    ensures { IfSome result (λ item. item ≡ case_for kind cases.now other control.now) }
{
    match control {
        Held::Part(part) => value_case(kind, cases, other, &part.value),
        _ => Some(None),
    }
}
