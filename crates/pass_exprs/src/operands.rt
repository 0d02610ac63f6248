// Which nodes are expressions, and which of their parts are operands.
ghost use Rattle.std.specs.Prelude.{◌≡◌};
ghost use Rattle.pass_exprs.specs.Operands.{operands_by, operands_of};

use cr_syntax::Kind;
use pass_levels::behind_first;

/// Which parts of a node are its operands (C11 6.5).
#[derive(Clone, Copy, PartialEq, Eq)]
pub enum Operands {
    /// It is no expression.
    NoExpression,
    /// None of them: those of `sizeof` aren't evaluated.
    NoPart,
    /// All of them, which may be none.
    EveryPart,
    /// All behind the first one, which is a cast's type or what a `?` asks.
    BehindFirst,
}

/// Which parts of a node of this kind are its operands.
pub fn operands_by(kind: Kind) -> Operands
    ensures { result ≡ operands_by kind }
{
    match kind {
        // The comma and assignments (6.5.17, 6.5.16)
        Kind::Comma
        | Kind::Assign
        | Kind::MultiplyAssign
        | Kind::DivideAssign
        | Kind::RemainderAssign
        | Kind::AddAssign
        | Kind::SubtractAssign
        | Kind::ShiftLeftAssign
        | Kind::ShiftRightAssign
        | Kind::AndAssign
        | Kind::XorAssign
        | Kind::OrAssign => Operands::EveryPart,
        // Logical and bitwise operators (6.5.10 to 6.5.14)
        Kind::LogicalOr | Kind::LogicalAnd | Kind::Or | Kind::Xor | Kind::And =>
            Operands::EveryPart,
        // Comparisons (6.5.8, 6.5.9)
        Kind::Equal
        | Kind::NotEqual
        | Kind::Less
        | Kind::Greater
        | Kind::LessEqual
        | Kind::GreaterEqual => Operands::EveryPart,
        // Shifts and arithmetic (6.5.5 to 6.5.7)
        Kind::ShiftLeft
        | Kind::ShiftRight
        | Kind::Add
        | Kind::Subtract
        | Kind::Multiply
        | Kind::Divide
        | Kind::Remainder => Operands::EveryPart,
        // Unary operators (6.5.3)
        Kind::PreIncrement
        | Kind::PreDecrement
        | Kind::AddressOf
        | Kind::Dereference
        | Kind::Plus
        | Kind::Minus
        | Kind::Complement
        | Kind::Not => Operands::EveryPart,
        // Postfix operators (6.5.2)
        Kind::Call
        | Kind::Subscript
        | Kind::Member
        | Kind::PointerMember
        | Kind::PostIncrement
        | Kind::PostDecrement => Operands::EveryPart,
        // Primary expressions (6.5.1)
        Kind::Identifier | Kind::Integer | Kind::Character | Kind::Text | Kind::Group =>
            Operands::EveryPart,
        // `?:` and casts (6.5.15, 6.5.4)
        Kind::Conditional | Kind::Cast => Operands::BehindFirst,
        // `sizeof` (6.5.3.4)
        Kind::SizeofExpression | Kind::SizeofType => Operands::NoPart,
        _ => Operands::NoExpression,
    }
}

/// The operands of a node, among its parts.
pub fn operands_of(operands: Operands, parts: &[u32]) -> &[u32]
    ensures { result.now ≡ operands_of operands parts.now }
{
    match operands {
        Operands::EveryPart => parts,
        Operands::BehindFirst => behind_first(parts),
        Operands::NoPart | Operands::NoExpression => &[],
    }
}
