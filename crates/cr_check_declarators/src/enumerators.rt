ghost use Rattle.std.specs.Prelude.{◌≡◌, ◌||◌};
ghost use Rattle.cr_check_declarators.specs.Structures.{next_of, value_by, is_missing, is_negative, was_negative, enumerated_of, enumeration_kind};

use cr_check_constants::{Constant, enumerator, next_enumerator};
use cr_ints::IntKind;

/// What an enumerator is given (C11 6.7.2.2p3).
#[derive(Clone, Copy)]
pub enum Given {
    /// nothing
    Nothing,
    /// an expression without a type
    Untyped,
    /// an expression that is so much of an integer constant expression
    Expression(Constant),
}

/// An enumerator.
#[derive(Clone, Copy)]
pub struct Enumerated {
    /// None where a constraint is broken here or before.
    pub value: Option<i128>,
    /// Whether it, or one before it in its list, is negative.
    pub negative: bool,
    /// Whether it has no value in int (K15).
    pub broken: bool,
}

/// An enumerator, by the one before it in its list, if there is one.
pub fn enumerator_by(before: Option<Enumerated>, given: Given) -> Enumerated
    ensures { result ≡ enumerated_of before given }
{
    let value = value_of(before, given);
    Enumerated {
        value,
        negative: was_negative(before) || is_negative(value),
        broken: is_missing(before, given, value),
    }
}

fn value_of(before: Option<Enumerated>, given: Given) -> Option<i128>
    ensures { result ≡ value_by before given }
{
    match given {
        Given::Expression(constant) => enumerator(constant),
        Given::Untyped => None,
        Given::Nothing => match before {
            Some(last) => next_of(last.value),
            None => Some(0),
        },
    }
}

fn next_of(value: Option<i128>) -> Option<i128>
    ensures { result ≡ next_of value }
{
    match value {
        Some(value) => next_enumerator(value),
        None => None,
    }
}

// Whether there is no value though what it comes from is known.
fn is_missing(before: Option<Enumerated>, given: Given, value: Option<i128>) -> bool
    ensures { result ≡ is_missing before given value }
{
    match (given, before) {
        (Given::Untyped, _) => false,
        (Given::Nothing, Some(last)) => last.value.is_some() && value.is_none(),
        (Given::Nothing, None) | (Given::Expression(_), _) => value.is_none(),
    }
}

fn is_negative(value: Option<i128>) -> bool
    ensures { result ≡ is_negative value }
{
    match value {
        Some(value) => value < 0,
        None => false,
    }
}

fn was_negative(before: Option<Enumerated>) -> bool
    ensures { result ≡ was_negative before }
{
    match before {
        Some(last) => last.negative,
        None => false,
    }
}

/// The integer type that an enumerated type is, by whether one of its enumerators is negative.
pub fn enumeration_kind(negative: bool) -> IntKind
    ensures { result ≡ enumeration_kind negative }
{
    if negative {
        IntKind::Int
    } else {
        IntKind::UInt
    }
}
