#![tactic(auto, using(crate::proofs::Answering::answers, crate::proofs::Answering::then_answers, crate::proofs::Answering::ends_answer, crate::proofs::Answering::written))]

ghost use Rattle.std.specs.Prelude.{◌≡◌, Ok, false, neg_ℤ, if◌then◌else◌};
ghost use Rattle.cr_ints.specs.IntKind.{IsInteger};
ghost use Rattle.cr_memory.specs.Access.{HasStride, reach_of};
ghost use Rattle.cr_memory.specs.Pointers.{shift_of, differ_of, less_of, same_of};
ghost use Rattle.cr_meaning.specs.Values.{misfits, strays, misfit_value, moved, moved_either, as_pointer, related, with_pointers, if_both_fit, distance};
ghost use Rattle.cr_eval.specs.Answers.{Answers};

use crate::integers::is_integer;
use crate::values::{UNUSED_VALUE, truth};
use cr_ints::IntKind;
use cr_meaning::{Relation, Value};
use cr_memory::{Element, OTHER_TYPE, Pointer, Store, Trap};

/// Whether a pointer isn't null and points to elements of another type (N5).
#[inline]
pub fn misfits(own: Element, at: Pointer) -> bool
    ensures { result ≡ misfits own at }
{
    match at {
        Pointer::Null => false,
        Pointer::At { element, .. } => !(element.cells == own.cells && element.of == own.of),
    }
}

/// Whether a place isn't one of so many cells (N5).
#[inline]
pub(crate) fn strays(cells: usize, at: Pointer) -> bool
    ensures test { result ≡ strays cells at }
    ensures stride { result ≡ false → HasStride at cells }
{
    match at {
        Pointer::Null => false,
        Pointer::At { element, .. } => element.cells as usize != cells,
    }
}

fn misfit_value(own: Element, value: &Value) -> bool
    ensures { result ≡ misfit_value own value.now }
{
    match value {
        Value::Pointer(at) => misfits(own, *at),
        _ => false,
    }
}

// ---- the memory's operations on pointers that may be none of its own

/// The pointer points to a cell of a live object: U9, U10.
pub(crate) fn reach(store: &Store, at: Pointer) -> Result<(), Trap>
    ensures { Answers (reach_of store.now at) result }
{
    if store.is_pointer(at) {
        store.reach(at)
    } else {
        Err(Trap::NoMemory)
    }
}

fn shift(store: &Store, at: Pointer, by: i128) -> Result<Pointer, Trap>
    ensures { Answers (shift_of store.now at by) result }
{
    if store.is_pointer(at) {
        store.shift(at, by)
    } else {
        Err(Trap::NoMemory)
    }
}

fn differ(store: &Store, left: Pointer, right: Pointer) -> Result<i128, Trap>
    ensures { Answers (differ_of store.now left right) result }
{
    if store.is_pointer(left) && store.is_pointer(right) {
        store.differ(left, right)
    } else {
        Err(Trap::NoMemory)
    }
}

fn less(store: &Store, left: Pointer, right: Pointer) -> Result<bool, Trap>
    ensures { Answers (less_of store.now left right) result }
{
    if store.is_pointer(left) && store.is_pointer(right) {
        store.less(left, right)
    } else {
        Err(Trap::NoMemory)
    }
}

fn same(store: &Store, left: Pointer, right: Pointer) -> Result<bool, Trap>
    ensures { Answers (same_of store.now left right) result }
{
    if store.is_pointer(left) && store.is_pointer(right) {
        store.same(left, right)
    } else {
        Err(Trap::NoMemory)
    }
}

// ---- a pointer and an integer (6.5.6p8)

fn directed(back: bool, by: i128) -> i128
    requires { IsInteger by }
    ensures { result ≡ (if back then neg_ℤ by else by) }
{
    if back { -by } else { by }
}

/// A pointer moved by an integer: N5, U15, U10, U6.
fn moved(
    store: &Store,
    back: bool,
    own: Element,
    at: Pointer,
    value: &Value,
) -> Result<Pointer, Trap>
    ensures { Answers (moved store.now back own at value.now) result }
{
    match value {
        Value::Number(_, by) => {
            if misfits(own, at) {
                Err(Trap::Left(OTHER_TYPE))
            } else if is_integer(*by) {
                shift(store, at, directed(back, *by))
            } else {
                Err(Trap::NoMemory)
            }
        }
        Value::Nothing => {
            if misfits(own, at) {
                Err(Trap::Left(OTHER_TYPE))
            } else {
                Err(Trap::Undefined(UNUSED_VALUE))
            }
        }
        Value::Pointer(_) | Value::Place(_) | Value::Cells(_) => Err(Trap::NoMemory),
    }
}

/// The same, where the pointer may be the right operand.
pub(crate) fn moved_either(
    store: &Store,
    back: bool,
    own: Element,
    left: &Value,
    right: &Value,
) -> Result<Pointer, Trap>
    ensures { Answers (moved_either store.now back own left.now right.now) result }
{
    match (left, right) {
        (Value::Pointer(at), _) => moved(store, back, own, *at, right),
        (_, Value::Pointer(at)) => moved(store, back, own, *at, left),
        (Value::Nothing, _) | (_, Value::Nothing) => Err(Trap::Undefined(UNUSED_VALUE)),
        _ => Err(Trap::NoMemory),
    }
}

// ---- comparisons and differences (6.5.6p9, 6.5.8p5, 6.5.9p6)

/// A pointer, or a null pointer constant, which becomes one (6.3.2.3p3): U15.
pub fn as_pointer(value: &Value) -> Result<Pointer, Trap>
    ensures { result ≡ as_pointer value.now }
{
    match value {
        Value::Pointer(at) => Ok(*at),
        Value::Number(_, _) => Ok(Pointer::Null),
        Value::Nothing => Err(Trap::Undefined(UNUSED_VALUE)),
        Value::Place(_) | Value::Cells(_) => Err(Trap::NoMemory),
    }
}

/// A comparison of two pointers: U8, U10, N6.
fn related(store: &Store, relation: Relation, left: Pointer, right: Pointer) -> Result<Value, Trap>
    ensures { Answers (related store.now relation left right) result }
{
    match relation {
        Relation::Less => Ok(truth(less(store, left, right)?)),
        Relation::Greater => Ok(truth(less(store, right, left)?)),
        Relation::LessEqual => Ok(truth(!less(store, right, left)?)),
        Relation::GreaterEqual => Ok(truth(!less(store, left, right)?)),
        Relation::Equal => Ok(truth(same(store, left, right)?)),
        Relation::NotEqual => Ok(truth(!same(store, left, right)?)),
    }
}

/// A comparison of operands that are pointers: U15, and the cases of the comparison.
pub(crate) fn compared(
    store: &Store,
    relation: Relation,
    left: &Value,
    right: &Value,
) -> Result<Value, Trap>
    ensures { Answers (with_pointers left.now right.now (related store.now relation)) result }
{
    let one = as_pointer(left)?;
    let other = as_pointer(right)?;
    related(store, relation, one, other)
}

fn difference(store: &Store, left: Pointer, right: Pointer) -> Result<Value, Trap>
    ensures { Answers (distance store.now left right) result }
{
    let by = differ(store, left, right)?;
    Ok(Value::Number(IntKind::Long, by))
}

/// The difference of two pointers to such elements: N5, U15, U10, U7.
pub(crate) fn distance(
    store: &Store,
    own: Element,
    left: &Value,
    right: &Value,
) -> Result<Value, Trap>
    ensures { Answers (if_both_fit own left.now right.now (with_pointers left.now right.now (distance store.now))) result }
{
    if misfit_value(own, left) || misfit_value(own, right) {
        return Err(Trap::Left(OTHER_TYPE));
    }
    let one = as_pointer(left)?;
    let other = as_pointer(right)?;
    difference(store, one, other)
}
