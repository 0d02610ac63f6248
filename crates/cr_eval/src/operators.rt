#![tactic(auto, using(crate::proofs::Answering::answers, crate::proofs::Answering::then_answers, crate::proofs::Answering::ends_answer, crate::proofs::Answering::written))]

ghost use Rattle.std.specs.Prelude.{◌≡◌, ◌&&◌, ◌||◌, not, Bool, [], ◌∷◌};
ghost use Rattle.cr_ints.specs.IntKind.{IsInteger};
ghost use Rattle.cr_ints.specs.Conversions.{convert_of};
ghost use Rattle.cr_meaning.specs.Values.{asked, changed, compares, holding, signed_by};
ghost use Rattle.cr_meaning.specs.Work.{integer, address, is_void, comparison, logical, conditional};
ghost use Rattle.cr_meaning.specs.World.{then_by};
ghost use Rattle.cr_eval.specs.Answers.{Answers};

use crate::integers::{compares, computed, is_integer, signed_by};
use crate::pointers::moved_either;
use crate::values::{UNUSED_VALUE, asked, converted, integer, is_nothing, truth};
use cr_ints::{IntKind, convert};
use cr_meaning::{Change, Form, Operator, Relation, Sign, Value};
use cr_memory::{Store, Trap};
use std::alloc::Global;

/// An operator on two integers: U15, and the operator's cases.
#[inline]
fn arithmetic(
    store: &Store,
    op: Operator,
    kind: IntKind,
    left: &Value,
    right: &Value,
) -> Result<Value, Trap>
    ensures { Answers (changed store.now (Change.Arithmetic op kind) left.now right.now) result }
{
    match (left, right) {
        (Value::Number(_, first), Value::Number(_, second)) => {
            if is_integer(*first) && is_integer(*second) {
                computed(op, kind, *first, *second)
            } else {
                Err(Trap::NoMemory)
            }
        }
        (Value::Nothing, _) | (_, Value::Nothing) => Err(Trap::Undefined(UNUSED_VALUE)),
        _ => Err(Trap::NoMemory),
    }
}

/// An operator of two operands.
#[inline]
pub(crate) fn changed(
    store: &Store,
    change: Change,
    left: &Value,
    right: &Value,
) -> Result<Value, Trap>
    ensures { Answers (changed store.now change left.now right.now) result }
{
    match change {
        Change::Arithmetic(op, kind) => arithmetic(store, op, kind, left, right),
        Change::Move(back, own) => Ok(Value::Pointer(moved_either(store, back, own, left, right)?)),
    }
}

#[inline]
fn compare_in(relation: Relation, kind: IntKind, left: i128, right: i128) -> bool
    requires left { IsInteger left }
    requires right { IsInteger right }
    ensures { result ≡ compares relation (convert_of left kind) (convert_of right kind) }
{
    compares(relation, convert(left, kind), convert(right, kind))
}

/// A comparison of integers in a kind (6.5.8, 6.5.9): U15.
#[inline]
pub(crate) fn compared_integers(
    store: &Store,
    relation: Relation,
    kind: IntKind,
    left: &Value,
    right: &Value,
) -> Result<Value, Trap>
    ensures { Answers (comparison store.now left.now right.now (λ l. λ r. holding (compares relation (convert_of l kind) (convert_of r kind)))) result }
{
    let first = integer(left)?;
    let second = integer(right)?;
    Ok(truth(compare_in(relation, kind, first, second)))
}

/// `+`, `-`, `~` of one operand (6.5.3.3): U15, U1.
pub(crate) fn signed(sign: Sign, kind: IntKind, value: &Value) -> Result<Value, Trap>
    ensures { Answers (then_by (integer value.now) (signed_by sign kind)) result }
{
    let number = integer(value)?;
    signed_by(sign, kind, number)
}

/// `!` (6.5.3.3p5): U15, U10.
pub(crate) fn negated(store: &Store, value: &Value) -> Result<Value, Trap>
    ensures { Answers (then_by (asked store.now value.now) (λ b. holding (not b))) result }
{
    Ok(truth(!asked(store, value)?))
}

/// `&` of a place (6.5.3.2p3).
pub(crate) fn address(value: &Value) -> Result<Value, Trap>
    ensures { result ≡ address value.now }
{
    match value {
        Value::Place(at) => Ok(Value::Pointer(*at)),
        _ => Err(Trap::NoMemory),
    }
}

// ---- operators that may leave an operand out (6.5.13 to 6.5.15)

/// `&&` or `||` by its left operand alone.
pub(crate) fn decided(store: &Store, left: &Value) -> Result<Value, Trap>
    ensures { (f : Bool → Bool → Bool) → Answers (logical store.now f (left.now ∷ [])) result }
{
    Ok(truth(asked(store, left)?))
}

/// `&&` of both operands: U15, U10.
pub(crate) fn both(store: &Store, left: &Value, right: &Value) -> Result<Value, Trap>
    ensures { Answers (logical store.now (λ l. λ r. l && r) (left.now ∷ right.now ∷ [])) result }
{
    if is_nothing(right) {
        return Err(Trap::Undefined(UNUSED_VALUE));
    }
    let first = asked(store, left)?;
    let second = asked(store, right)?;
    Ok(truth(first && second))
}

/// `||` of both operands: U15, U10.
pub(crate) fn either(store: &Store, left: &Value, right: &Value) -> Result<Value, Trap>
    ensures { Answers (logical store.now (λ l. λ r. l || r) (left.now ∷ right.now ∷ [])) result }
{
    if is_nothing(right) {
        return Err(Trap::Undefined(UNUSED_VALUE));
    }
    let first = asked(store, left)?;
    let second = asked(store, right)?;
    Ok(truth(first || second))
}

fn is_void(form: Form) -> bool
    ensures { result ≡ is_void form }
{
    match form {
        Form::Void => true,
        _ => false,
    }
}

/// `?:` by its first operand, which has no value: U15.
pub(crate) fn undecided(store: &Store, form: Form, first: &Value) -> Result<Value, Trap>
    ensures { Answers (conditional store.now form (first.now ∷ [])) result }
{
    if is_nothing(first) {
        Err(Trap::Undefined(UNUSED_VALUE))
    } else {
        Err(Trap::NoMemory)
    }
}

/// `?:` of a type, of its first operand and the chosen one: U15, U10.
pub(crate) fn conditional(
    alloc: Global,
    store: &Store,
    form: Form,
    first: &Value,
    chosen: &Value,
) -> Result<Value, Trap>
    ensures { Answers (conditional store.now form (first.now ∷ chosen.now ∷ [])) result }
{
    if is_nothing(chosen) && !is_void(form) {
        return Err(Trap::Undefined(UNUSED_VALUE));
    }
    asked(store, first)?;
    converted(alloc, store, form, chosen)
}
