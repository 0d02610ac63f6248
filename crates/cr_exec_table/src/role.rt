ghost use Rattle.std.specs.Prelude.{◌≡◌};
ghost use Rattle.cr_exec_table.specs.Roles.{role_of, assignment_role, binary_role, unary_role, statement_role};

use cr_meaning::{Operator, Relation, Sign};
use cr_syntax::Kind;

/// How the operation of a node is made, by its kind.
#[derive(Clone, Copy)]
pub(crate) enum Role {
    /// All parts are operands, and no place is given.
    Worker(Duty),
    /// All parts are operands, and a place may be given.
    Placer(Reach),
    /// There are no operands.
    Single(Leaf),
    Text,
    Identifier,
    Cast,
    Address,
    Labelled,
    Call,
    Block,
    Switch,
    For,
    Declaration,
    Initialise,
}

#[derive(Clone, Copy)]
pub(crate) enum Duty {
    Comma,
    Assign,
    Conditional,
    LogicalOr,
    LogicalAnd,
    /// An operator of the operands' common kind.
    Integers(Operator),
    Shift(Operator),
    Sum,
    Difference,
    Comparison(Relation),
    UpdatedIntegers(Operator),
    UpdatedShift(Operator),
    /// `+=` and `-=`, and whether a pointer moves back.
    UpdatedSum(Operator, bool),
    /// `++` and `--`, whether a pointer moves back, and whether the value is that before the change.
    Increment(Operator, bool, bool),
    Unary(Sign),
    Not,
    Expression,
    If,
    While,
    Do,
    Return,
}

#[derive(Clone, Copy)]
pub(crate) enum Reach {
    Dereference,
    Subscript,
    Member,
    PointerMember,
    Group,
}

#[derive(Clone, Copy)]
pub(crate) enum Leaf {
    Constant,
    Goto,
    Break,
    Continue,
    /// The declarator that is a name.
    Name,
    /// Another declarator of an object.
    Declarator,
    /// What has no work.
    Nothing,
}

#[tactic(auto, unfolding(crate::specs::Roles::role_of))]
pub(crate) fn role_of(kind: Kind) -> Role
    ensures { result ≡ role_of kind }
{
    if let Some(role) = assignment_role(kind) {
        return role;
    }
    if let Some(role) = binary_role(kind) {
        return role;
    }
    match unary_role(kind) {
        Some(role) => role,
        None => statement_role(kind),
    }
}

// Assignments, `++` and `--`.
#[tactic(auto, unfolding(crate::specs::Roles::assignment_role))]
fn assignment_role(kind: Kind) -> Option<Role>
    ensures { result ≡ assignment_role kind }
{
    Some(match kind {
        Kind::Assign => Role::Worker(Duty::Assign),
        Kind::MultiplyAssign => Role::Worker(Duty::UpdatedIntegers(Operator::Multiply)),
        Kind::DivideAssign => Role::Worker(Duty::UpdatedIntegers(Operator::Divide)),
        Kind::RemainderAssign => Role::Worker(Duty::UpdatedIntegers(Operator::Remainder)),
        Kind::AddAssign => Role::Worker(Duty::UpdatedSum(Operator::Add, false)),
        Kind::SubtractAssign => Role::Worker(Duty::UpdatedSum(Operator::Subtract, true)),
        Kind::ShiftLeftAssign => Role::Worker(Duty::UpdatedShift(Operator::ShiftLeft)),
        Kind::ShiftRightAssign => Role::Worker(Duty::UpdatedShift(Operator::ShiftRight)),
        Kind::AndAssign => Role::Worker(Duty::UpdatedIntegers(Operator::And)),
        Kind::XorAssign => Role::Worker(Duty::UpdatedIntegers(Operator::Xor)),
        Kind::OrAssign => Role::Worker(Duty::UpdatedIntegers(Operator::Or)),
        Kind::PreIncrement => Role::Worker(Duty::Increment(Operator::Add, false, false)),
        Kind::PreDecrement => Role::Worker(Duty::Increment(Operator::Subtract, true, false)),
        Kind::PostIncrement => Role::Worker(Duty::Increment(Operator::Add, false, true)),
        Kind::PostDecrement => Role::Worker(Duty::Increment(Operator::Subtract, true, true)),
        _ => return None,
    })
}

// Operators of several operands.
#[tactic(auto, unfolding(crate::specs::Roles::binary_role))]
fn binary_role(kind: Kind) -> Option<Role>
    ensures { result ≡ binary_role kind }
{
    Some(match kind {
        Kind::Comma => Role::Worker(Duty::Comma),
        Kind::Conditional => Role::Worker(Duty::Conditional),
        Kind::LogicalOr => Role::Worker(Duty::LogicalOr),
        Kind::LogicalAnd => Role::Worker(Duty::LogicalAnd),
        Kind::Or => Role::Worker(Duty::Integers(Operator::Or)),
        Kind::Xor => Role::Worker(Duty::Integers(Operator::Xor)),
        Kind::And => Role::Worker(Duty::Integers(Operator::And)),
        Kind::Equal => Role::Worker(Duty::Comparison(Relation::Equal)),
        Kind::NotEqual => Role::Worker(Duty::Comparison(Relation::NotEqual)),
        Kind::Less => Role::Worker(Duty::Comparison(Relation::Less)),
        Kind::Greater => Role::Worker(Duty::Comparison(Relation::Greater)),
        Kind::LessEqual => Role::Worker(Duty::Comparison(Relation::LessEqual)),
        Kind::GreaterEqual => Role::Worker(Duty::Comparison(Relation::GreaterEqual)),
        Kind::ShiftLeft => Role::Worker(Duty::Shift(Operator::ShiftLeft)),
        Kind::ShiftRight => Role::Worker(Duty::Shift(Operator::ShiftRight)),
        Kind::Add => Role::Worker(Duty::Sum),
        Kind::Subtract => Role::Worker(Duty::Difference),
        Kind::Multiply => Role::Worker(Duty::Integers(Operator::Multiply)),
        Kind::Divide => Role::Worker(Duty::Integers(Operator::Divide)),
        Kind::Remainder => Role::Worker(Duty::Integers(Operator::Remainder)),
        _ => return None,
    })
}

// Operators of one operand, places and what has no operands.
#[tactic(auto, unfolding(crate::specs::Roles::unary_role))]
fn unary_role(kind: Kind) -> Option<Role>
    ensures { result ≡ unary_role kind }
{
    Some(match kind {
        Kind::Cast => Role::Cast,
        Kind::AddressOf => Role::Address,
        Kind::Dereference => Role::Placer(Reach::Dereference),
        Kind::Plus => Role::Worker(Duty::Unary(Sign::Plus)),
        Kind::Minus => Role::Worker(Duty::Unary(Sign::Minus)),
        Kind::Complement => Role::Worker(Duty::Unary(Sign::Complement)),
        Kind::Not => Role::Worker(Duty::Not),
        Kind::SizeofExpression => Role::Single(Leaf::Constant),
        Kind::SizeofType => Role::Single(Leaf::Constant),
        Kind::Call => Role::Call,
        Kind::Subscript => Role::Placer(Reach::Subscript),
        Kind::Member => Role::Placer(Reach::Member),
        Kind::PointerMember => Role::Placer(Reach::PointerMember),
        Kind::Identifier => Role::Identifier,
        Kind::Integer => Role::Single(Leaf::Constant),
        Kind::Character => Role::Single(Leaf::Constant),
        Kind::Text => Role::Text,
        Kind::Group => Role::Placer(Reach::Group),
        _ => return None,
    })
}

// Statements, declarations and declarators.
#[tactic(auto, unfolding(crate::specs::Roles::statement_role))]
fn statement_role(kind: Kind) -> Role
    ensures { result ≡ statement_role kind }
{
    match kind {
        Kind::Compound => Role::Block,
        Kind::ExpressionStatement => Role::Worker(Duty::Expression),
        Kind::If => Role::Worker(Duty::If),
        Kind::Switch => Role::Switch,
        Kind::While => Role::Worker(Duty::While),
        Kind::Do => Role::Worker(Duty::Do),
        Kind::For => Role::For,
        Kind::Label => Role::Labelled,
        Kind::Case => Role::Labelled,
        Kind::Default => Role::Labelled,
        Kind::Goto => Role::Single(Leaf::Goto),
        Kind::Break => Role::Single(Leaf::Break),
        Kind::Continue => Role::Single(Leaf::Continue),
        Kind::Return => Role::Worker(Duty::Return),
        Kind::InitDeclarator => Role::Initialise,
        Kind::Declaration => Role::Declaration,
        Kind::NameDeclarator => Role::Single(Leaf::Name),
        Kind::PointerDeclarator => Role::Single(Leaf::Declarator),
        Kind::GroupDeclarator => Role::Single(Leaf::Declarator),
        Kind::ArrayDeclarator => Role::Single(Leaf::Declarator),
        _ => Role::Single(Leaf::Nothing),
    }
}
