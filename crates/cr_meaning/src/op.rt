use cr_ints::IntKind;
use cr_memory::{Element, Scalar};
use cr_rows::Row;

/// What a type is to the run.
#[derive(Clone, Copy)]
pub enum Form {
    Void,
    Number(IntKind),
    /// A pointer type, by the number that tells what it points to.
    Pointer(u32),
    /// A structure, or an array that is no lvalue, by its row in the table of types.
    Cells(u32),
}

/// How the place that a node gives is used as a value (C11 6.3.2.1p2, p3).
#[derive(Clone, Copy)]
pub enum Access {
    /// It isn't, or the node gives no place.
    Unused,
    /// A scalar is read, of a type qualified `volatile` or not.
    Scalar(Scalar, bool),
    /// A structure is read, of a row of the table of types.
    Cells(u32),
    /// An array becomes a pointer to its first element: the element, and the array's cells, 0 where that is unknown.
    Array(Element, u32),
}

/// An arithmetic operator of two operands (6.5.5 to 6.5.7, 6.5.10 to 6.5.12).
#[derive(Clone, Copy)]
pub enum Operator {
    Multiply,
    Divide,
    Remainder,
    Add,
    Subtract,
    ShiftLeft,
    ShiftRight,
    And,
    Xor,
    Or,
}

/// An arithmetic operator of one operand (6.5.3.3).
#[derive(Clone, Copy)]
pub enum Sign {
    Plus,
    Minus,
    Complement,
}

/// A comparison (6.5.8, 6.5.9).
#[derive(Clone, Copy)]
pub enum Relation {
    Less,
    Greater,
    LessEqual,
    GreaterEqual,
    Equal,
    NotEqual,
}

/// What an operator of two operands makes of them.
#[derive(Clone, Copy)]
pub enum Change {
    /// Integers, in this kind: the common one, or of a shift the promoted left one.
    Arithmetic(Operator, IntKind),
    /// A pointer to such elements and an integer: their sum, or where `true` their difference.
    Move(bool, Element),
}

/// A parameter, or an initialised part of an object.
#[derive(Clone, Copy)]
pub struct Parameter {
    /// The node that declares it.
    pub node: u32,
    pub form: Form,
}

/// What is called (6.5.2.2, 7.21.6.3, 7.21.7.7, 7.22.4.1, 7.22.4.4).
#[derive(Drop)]
pub enum Callee {
    /// A function of the program: its parameters, its body, and whether it is `main`.
    Function(Row<Parameter>, u32, bool),
    /// `printf`: for each argument after the format whether it is a pointer to char.
    Printf(Row<bool>),
    Putchar,
    Exit,
    Abort,
}

/// An initialiser and what it initialises.
#[derive(Clone, Copy)]
pub struct Line {
    /// The cell at which the part begins.
    pub cell: u32,
    /// The part's type.
    pub form: Form,
    /// The initialised declarator or the braced list that uses the value.
    pub user: u32,
}

/// A label of a block: its node, and the number of the item that it stands on.
#[derive(Clone, Copy)]
pub struct Target {
    pub label: u32,
    pub item: usize,
}

/// A `case` of a `switch`: its constant, and the number of the item that it stands on.
#[derive(Clone, Copy)]
pub struct Case {
    pub constant: i128,
    pub item: usize,
}

/// The work of a node, once its operands are evaluated.
#[derive(Drop)]
pub enum Work {
    // Expressions (6.5)
    /// A constant, an enumerator or `sizeof`.
    Constant(IntKind, i128),
    /// The object that a node declares, or a string literal's by its own node; and what names its type.
    Object(u32, u32),
    /// Brackets and `&*`: the operand, as it is.
    Pass,
    Comma,
    /// `?:` of this type.
    Conditional(Form),
    LogicalAnd,
    LogicalOr,
    /// A binary operator.
    Binary(Change),
    /// A comparison of integers in this kind.
    Compare(Relation, IntKind),
    /// A comparison of pointers.
    ComparePointers(Relation),
    /// The difference of two pointers to such elements.
    Distance(Element),
    Unary(Sign, IntKind),
    Not,
    Cast(Form),
    AddressOf,
    /// `*` of a pointer to such an element.
    Dereference(Element),
    /// `[]` of a pointer to such elements.
    Subscript(Element),
    /// `.`: the cells of the structure, the cells before the member, the member as an element, and its type.
    Member(u32, u32, Element, Form),
    /// `->`: the structure as an element, the cells before the member, and the member as one.
    PointerMember(Element, u32, Element),
    /// `=` into this type.
    Assign(Form),
    /// A compound assignment, or `++` or `--`, where 1 stands in the place of the right operand: the operator, the type, whether
    /// that is qualified `volatile`, and whether the value is that before the change.
    Update(Change, Form, bool, bool),
    Call(Callee),
    // Statements (6.8)
    /// An expression statement, with or without an expression.
    Expression,
    If,
    While,
    Do,
    /// `for`: the automatic objects that it declares, and its four parts.
    For(Row<u32>, Option<u32>, Option<u32>, Option<u32>, u32),
    /// `switch` in this kind: its body, the automatic objects of that, its cases, the item of `default`, and its labels. Its parts
    /// are the controlling expression and the body's items.
    Switch(IntKind, u32, Row<u32>, Row<Case>, Option<usize>, Row<Target>),
    /// A compound statement: its automatic objects and its labels.
    Block(Row<u32>, Row<Target>),
    /// A statement with a label before it.
    Labelled,
    Break,
    Continue,
    /// `goto` to the label of this node.
    Goto(u32),
    /// `return` from a function of this type.
    Return(Form),
    /// A declaration in a block: its parts are its declarators with work.
    Declaration,
    /// A declarator without initialiser, of an object of automatic duration by the node that declares it.
    Declare(u32),
    /// A declarator with initialiser: the node that declares its object, and a line for each initialiser.
    Initialise(u32, Row<Line>),
    /// The whole program: its static objects and literals in order of their tokens; then `main`'s parameters, what the second one
    /// points to, and its body. Its parts are the declarators with initialisers of static objects.
    Program(Row<u32>, Row<Parameter>, Scalar, u32),
}

/// What a node does: the operands that are evaluated first, in order; its work; and how the place that this gives is used.
#[derive(Drop)]
pub struct Op {
    pub parts: Row<u32>,
    pub work: Work,
    pub access: Access,
}
