ghost use Rattle.std.specs.Prelude.{◌≡◌, pos, ℤ};
ghost use Rattle.cr_check_constants.specs.Constants.{truth_of, constant_of, both, beside};

use cr_ints::{IntEnd, IntKind};

/// What an expression is as an integer constant expression (C11 6.6p6).
#[derive(Clone, Copy, PartialEq, Eq, Debug)]
pub enum Constant {
    /// One of its operands is no constant, whether it is evaluated or not.
    NotConstant,
    /// All its operands are constants, so it may stand where it isn't evaluated; evaluated it meets an undefined case
    /// or a comma, so it is no constant expression by itself (6.6p3, p4).
    Undefined,
    /// It is one, of this value.
    Value(i128),
}

/// An expression of integer type.
#[derive(Clone, Copy, PartialEq, Eq, Debug)]
pub struct Operand {
    /// Its type; an enumerated type is `Int` or `UInt` itself.
    pub kind: IntKind,
    pub constant: Constant,
}

/// How an operation on integers ends, as a constant.
pub(crate) fn ended(end: IntEnd) -> Constant
    ensures { result ≡ constant_of end }
{
    match end {
        IntEnd::Value(value) => Constant::Value(value),
        IntEnd::Undefined(_) => Constant::Undefined,
    }
}

/// 1 where it is so, and else 0.
pub(crate) fn truth(so: bool) -> Constant
    ensures { result ≡ truth_of so }
{
    Constant::Value(i128::from(so))
}

/// The answer where an operand isn't evaluated.
pub(crate) fn beside(operand: Constant, answer: Constant) -> Constant
    ensures { result ≡ beside operand answer }
{
    match operand {
        Constant::NotConstant => Constant::NotConstant,
        Constant::Undefined | Constant::Value(_) => answer,
    }
}

/// Two operands of which one at least has no value, both evaluated.
pub(crate) fn without_value(left: Constant, right: Constant) -> Constant
    ensures { result ≡ beside left (beside right Constant.Undefined) }
{
    beside(left, beside(right, Constant::Undefined))
}
