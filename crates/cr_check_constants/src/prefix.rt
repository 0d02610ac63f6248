ghost use Rattle.std.specs.Prelude.{◌≡◌};
ghost use Rattle.cr_ints.specs.IntKind.{Represents};
ghost use Rattle.cr_check_constants.specs.Operators.{complement_of, signed_by, unary_of, cast_of, size_of, enumerator_of, next_enumerator_of};

use crate::constant::{Constant, Operand, ended};
use crate::convert::{converted, promoted_kind};
use crate::operator::Sign;
use cr_ints::{IntKind, sub};

/// `+ - ~` of an operand of integer type (C11 6.5.3.3p2 to p4).
pub fn unary(operator: Sign, operand: Operand) -> Operand
    ensures { result ≡ unary_of operator operand }
{
    let kind = promoted_kind(operand.kind);
    let constant = match operand.constant {
        Constant::NotConstant => Constant::NotConstant,
        Constant::Undefined => Constant::Undefined,
        Constant::Value(value) => signed_by(operator, kind, converted(kind, value)),
    };
    Operand { kind, constant }
}

#[tactic(auto, unfolding(crate::specs::Operators::signed_by))]
fn signed_by(operator: Sign, kind: IntKind, value: i128) -> Constant
    requires { Represents kind value }
    ensures { result ≡ signed_by operator kind value }
{
    match operator {
        Sign::Plus => Constant::Value(value),
        Sign::Minus => ended(sub(kind, 0, value)),
        Sign::Complement => Constant::Value(complement(kind, value)),
    }
}

/// A cast of an expression of integer type to an integer type (6.5.4).
pub fn cast(kind: IntKind, operand: Constant) -> Operand
    ensures { result ≡ cast_of kind operand }
{
    let constant = match operand {
        Constant::NotConstant => Constant::NotConstant,
        Constant::Undefined => Constant::Undefined,
        Constant::Value(value) => Constant::Value(converted(kind, value)),
    };
    Operand { kind, constant }
}

/// `sizeof` of a type of so many bytes (6.5.3.4).
pub fn size(bytes: u64) -> Operand
    ensures { result ≡ size_of bytes }
{
    Operand {
        kind: IntKind::ULong,
        constant: Constant::Value(i128::from(bytes)),
    }
}

/// The value of an enumerator that an expression gives (6.7.2.2p2): None where the expression is no integer constant
/// expression with a value in int.
pub fn enumerator(constant: Constant) -> Option<i128>
    ensures { result ≡ enumerator_of constant }
{
    match constant {
        Constant::NotConstant | Constant::Undefined => None,
        Constant::Value(value) => in_int(value),
    }
}

/// The value of an enumerator without an expression, behind one of this value (6.7.2.2p3): None where it isn't in int.
pub fn next_enumerator(value: i128) -> Option<i128>
    ensures { result ≡ next_enumerator_of value }
{
    match value.checked_add(1) {
        Some(next) => in_int(next),
        None => None,
    }
}

fn in_int(value: i128) -> Option<i128>
    ensures { result ≡ enumerator_of (Constant.Value value) }
{
    if IntKind::Int.can_represent(value) {
        Some(value)
    } else {
        None
    }
}

fn complement(kind: IntKind, value: i128) -> i128
    requires { Represents kind value }
    ensures { result ≡ complement_of kind value }
{
    if kind.is_signed() {
        -1 - value
    } else {
        kind.greatest() - value
    }
}
