ghost use Rattle.std.specs.Prelude.{◌≡◌};
ghost use Rattle.cr_check_expressions.specs.Forms.{form_of, binary_form_of, assignment_form_of, row_of_integers};

use cr_check_constants::{Arithmetic, Relation, Shift, Sign};
use cr_check_operands::Junction;
use cr_syntax::Kind;

/// What an expression is, by its kind: kinds of one form have one rule and one constraint.
#[derive(Clone, Copy)]
pub enum Form {
    /// an identifier (C11 6.5.1)
    Name,
    /// an integer constant
    Integer,
    /// a character constant
    Character,
    /// a string literal
    Text,
    /// an expression in brackets
    Group,
    /// `[]` (6.5.2)
    Subscript,
    /// a call of a function
    Call,
    /// `.`
    Member,
    /// `->`
    PointerMember,
    /// `++` and `--` behind their operand
    StepBehind,
    /// `++` and `--` before their operand (6.5.3)
    StepBefore,
    /// unary `&`
    Address,
    /// unary `*`
    Dereference,
    /// unary `+ - ~`
    Signed(Sign),
    /// `!`
    Negated,
    /// `sizeof` of an expression
    SizeofExpression,
    /// `sizeof` of a type
    SizeofType,
    /// a cast (6.5.4)
    Cast,
    /// `* / % & ^ |` (6.5.5, 6.5.10 to 6.5.12)
    Integers(Arithmetic),
    /// `+` (6.5.6)
    Sum,
    /// binary `-`
    Difference,
    /// `<< >>` (6.5.7)
    Shifted(Shift),
    /// `< > <= >=` (6.5.8)
    Order(Relation),
    /// `== !=` (6.5.9)
    Equality(Relation),
    /// `&& ||` (6.5.13, 6.5.14)
    Logical(Junction),
    /// `?:` (6.5.15)
    Conditional,
    /// `=` (6.5.16.1)
    Assign,
    /// compound assignment, and whether it is `+=` or `-=` (6.5.16.2)
    Compound(bool),
    /// `,` (6.5.17)
    Comma,
    /// no expression
    Other,
}

/// The form of a kind.
pub fn form_of(kind: Kind) -> Form
    ensures { result ≡ form_of kind }
{
    match kind {
        Kind::Identifier => Form::Name,
        Kind::Integer => Form::Integer,
        Kind::Character => Form::Character,
        Kind::Text => Form::Text,
        Kind::Group => Form::Group,
        Kind::Subscript => Form::Subscript,
        Kind::Call => Form::Call,
        Kind::Member => Form::Member,
        Kind::PointerMember => Form::PointerMember,
        Kind::PostIncrement | Kind::PostDecrement => Form::StepBehind,
        Kind::PreIncrement | Kind::PreDecrement => Form::StepBefore,
        Kind::AddressOf => Form::Address,
        Kind::Dereference => Form::Dereference,
        Kind::Plus => Form::Signed(Sign::Plus),
        Kind::Minus => Form::Signed(Sign::Minus),
        Kind::Complement => Form::Signed(Sign::Complement),
        Kind::Not => Form::Negated,
        Kind::SizeofExpression => Form::SizeofExpression,
        Kind::SizeofType => Form::SizeofType,
        Kind::Cast => Form::Cast,
        Kind::Conditional => Form::Conditional,
        Kind::Comma => Form::Comma,
        _ => binary_form_of(kind),
    }
}

// Of the operators between two operands.
fn binary_form_of(kind: Kind) -> Form
    ensures { result ≡ binary_form_of kind }
{
    match kind {
        Kind::Multiply => Form::Integers(Arithmetic::Multiply),
        Kind::Divide => Form::Integers(Arithmetic::Divide),
        Kind::Remainder => Form::Integers(Arithmetic::Remainder),
        Kind::Add => Form::Sum,
        Kind::Subtract => Form::Difference,
        Kind::ShiftLeft => Form::Shifted(Shift::Left),
        Kind::ShiftRight => Form::Shifted(Shift::Right),
        Kind::Less => Form::Order(Relation::Less),
        Kind::Greater => Form::Order(Relation::Greater),
        Kind::LessEqual => Form::Order(Relation::LessEqual),
        Kind::GreaterEqual => Form::Order(Relation::GreaterEqual),
        Kind::Equal => Form::Equality(Relation::Equal),
        Kind::NotEqual => Form::Equality(Relation::NotEqual),
        Kind::And => Form::Integers(Arithmetic::And),
        Kind::Xor => Form::Integers(Arithmetic::Xor),
        Kind::Or => Form::Integers(Arithmetic::Or),
        Kind::LogicalAnd => Form::Logical(Junction::Conjunction),
        Kind::LogicalOr => Form::Logical(Junction::Disjunction),
        _ => assignment_form_of(kind),
    }
}

fn assignment_form_of(kind: Kind) -> Form
    ensures { result ≡ assignment_form_of kind }
{
    match kind {
        Kind::Assign => Form::Assign,
        Kind::AddAssign | Kind::SubtractAssign => Form::Compound(true),
        Kind::MultiplyAssign | Kind::DivideAssign | Kind::RemainderAssign => Form::Compound(false),
        Kind::ShiftLeftAssign | Kind::ShiftRightAssign => Form::Compound(false),
        Kind::AndAssign | Kind::XorAssign | Kind::OrAssign => Form::Compound(false),
        _ => Form::Other,
    }
}

/// The constraint of the operators that have integers alone: K28 of `* / %`, and K34 of `& ^ |`.
pub fn row_of_integers(operator: Arithmetic) -> u8
    ensures { result ≡ row_of_integers operator }
{
    match operator {
        Arithmetic::And => 34,
        Arithmetic::Xor => 34,
        Arithmetic::Or => 34,
        _ => 28,
    }
}
