ghost use Rattle.std.specs.Prelude.{◌≡◌};
ghost use Rattle.cr_check_constants.specs.Constants.{is_not_zero, truth_of, one};
ghost use Rattle.cr_check_constants.specs.Operators.{logical_and_of, logical_or_of, not_of, chosen, conditional_of, comma_of};

use crate::constant::{Constant, Operand, beside, truth};
use crate::convert::{common_kind, converted};
use cr_ints::IntKind;

/// `&&` (C11 6.5.13). It is an int, whatever the scalar types of its operands.
pub fn logical_and(left: Constant, right: Constant) -> Constant
    ensures { result ≡ logical_and_of left right }
{
    match left {
        Constant::NotConstant => Constant::NotConstant,
        Constant::Undefined => beside(right, Constant::Undefined),
        Constant::Value(0) => beside(right, Constant::Value(0)),
        Constant::Value(_) => truth_by(right),
    }
}

/// `||` (6.5.14). It is an int, whatever the scalar types of its operands.
pub fn logical_or(left: Constant, right: Constant) -> Constant
    ensures { result ≡ logical_or_of left right }
{
    match left {
        Constant::NotConstant => Constant::NotConstant,
        Constant::Undefined => beside(right, Constant::Undefined),
        Constant::Value(0) => truth_by(right),
        Constant::Value(_) => beside(right, Constant::Value(1)),
    }
}

// Whether an operand isn't 0, where it has a value.
fn truth_by(operand: Constant) -> Constant
    ensures { result ≡ one (λ y. truth_of (is_not_zero y)) operand }
{
    match operand {
        Constant::NotConstant => Constant::NotConstant,
        Constant::Undefined => Constant::Undefined,
        Constant::Value(value) => truth(value != 0),
    }
}

/// `!` (6.5.3.3p5). It is an int.
pub fn not(operand: Constant) -> Operand
    ensures { result ≡ not_of operand }
{
    let constant = match operand {
        Constant::NotConstant => Constant::NotConstant,
        Constant::Undefined => Constant::Undefined,
        Constant::Value(value) => truth(value == 0),
    };
    Operand {
        kind: IntKind::Int,
        constant,
    }
}

/// `?:` with a second and a third operand of integer types (6.5.15).
pub fn conditional(condition: Constant, left: Operand, right: Operand) -> Operand
    ensures { result ≡ conditional_of condition left right }
{
    let kind = common_kind(left.kind, right.kind);
    let constant = match chosen(condition, left.constant, right.constant) {
        Constant::NotConstant => Constant::NotConstant,
        Constant::Undefined => Constant::Undefined,
        Constant::Value(value) => Constant::Value(converted(kind, value)),
    };
    Operand { kind, constant }
}

// The operand that is evaluated.
fn chosen(condition: Constant, left: Constant, right: Constant) -> Constant
    ensures { result ≡ chosen condition left right }
{
    match condition {
        Constant::NotConstant => Constant::NotConstant,
        Constant::Undefined => beside(left, beside(right, Constant::Undefined)),
        Constant::Value(0) => beside(left, right),
        Constant::Value(_) => beside(right, left),
    }
}

/// A comma expression whose right operand is of integer type (6.6p3).
pub fn comma(left: Constant, right: Operand) -> Operand
    ensures { result ≡ comma_of left right }
{
    Operand {
        kind: right.kind,
        constant: beside(left, beside(right.constant, Constant::Undefined)),
    }
}
