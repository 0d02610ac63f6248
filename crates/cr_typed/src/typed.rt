use cr_check_types::{Layout, Table};
use cr_rows::Row;
use cr_syntax::Node;
use cr_tokens::Token;

/// What a declared name stands for in a run (C11 6.2.4).
#[derive(Clone, Copy)]
pub enum Duration {
    /// No object: a type, a function, a member, an enumerator, a parameter of a declaration.
    NoObject,
    /// An object that lives while its block or its call runs (6.2.4p5).
    Automatic,
    /// An object that lives while the program runs (6.2.4p3).
    Static,
}

/// An initialiser and what it initialises (6.7.9).
#[derive(Clone, Copy)]
pub struct Put {
    /// The expression.
    pub node: u32,
    /// The cell of the object at which its part begins.
    pub cell: u32,
    /// The row of the part's type.
    pub row: u32,
    /// The initialised declarator, or the braced list, that uses the value.
    pub user: u32,
}

/// A unit with the types of its expressions. Each column has one entry a node, and what is said of no node is arbitrary. It holds
/// nothing but lists, so that two such units with the same columns are the same.
#[derive(Drop)]
pub struct Typed {
    /// The file's bytes.
    pub file: Row<u8>,
    /// The unit's tokens, nodes and external declarations.
    pub tokens: Row<Token>,
    pub nodes: Row<Node>,
    pub items: Row<u32>,
    /// The types, which the others name by their numbers.
    pub shapes: Table,
    /// The row of each expression's type; of every other node one of no type.
    pub types: Row<u32>,
    /// For each identifier in an expression, each call and each declared name the node that declares its entity first; for
    /// a `goto` the node of its label.
    pub refs: Row<Option<u32>>,
    /// Whether the node is an expression whose place is used as a value (6.3.2.1p2, p3).
    pub valued: Row<bool>,
    /// The row of the type that a declared name has, a cast names, or the function of a `return` gives.
    pub named: Row<u32>,
    /// What the object of a declared name is.
    pub durations: Row<Duration>,
    /// The value of an integer or character constant, of an identifier that is an enumerator, of `sizeof`, and of the expression of
    /// a `case`.
    pub constants: Row<Option<i128>>,
    /// The layout of each structure at its content.
    pub layouts: Row<Layout>,
    /// The rows of the members of each structure at its content, in order.
    pub members: Row<Row<u32>>,
    /// The number of the member that `.` or `->` names, among those.
    pub chosen: Row<usize>,
    /// The parameters of each function definition, by the nodes that declare their names.
    pub parameters: Row<Row<u32>>,
    /// What the initialisers of each initialised declarator initialise, in order of their tokens.
    pub plans: Row<Row<Put>>,
    /// The bytes of each string literal, with its closing zero (6.4.5p6).
    pub texts: Row<Row<u8>>,
    /// The definition of `main`.
    pub main: u32,
}
