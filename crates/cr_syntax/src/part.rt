/// The most levels of nesting.
pub const MOST_LEVELS: usize = 128;

/// What the grammar can ask for at a place: the left sides of its rules, under the names of C11 Annex A where it has them.
#[derive(Clone, Copy, PartialEq, Eq, Debug)]
pub enum Part {
    // External definitions and declarations (C11 6.9, 6.7)
    External,
    Declaration,
    InitDeclarator,
    Initializer,
    Specifiers,
    Specifier,
    PlainSpecifiers,
    Plain,
    MemberDeclaration,
    MemberDeclarator,
    Enumerator,
    Declarator,
    DirectDeclarator,
    Parameters,
    Parameter,
    ParameterDeclarator,
    Abstract,
    DirectAbstract,
    TypeName,
    // Statements (6.8)
    BlockItem,
    Statement,
    Compound,
    // Expressions (6.5), from the loosest to the tightest
    Expression,
    Assignment,
    Conditional,
    LogicalOr,
    LogicalAnd,
    Or,
    Xor,
    And,
    Equality,
    Relational,
    Shift,
    Additive,
    Multiplicative,
    Cast,
    Unary,
    Postfix,
    Primary,
}

/// What the tokens and parts before say of an identifier that comes.
#[derive(Clone, Copy, PartialEq, Eq, Debug)]
pub struct Context {
    /// An identifier here is a name, since a type specifier or another token stands before it.
    pub typed: bool,
    /// The specifiers say `typedef`.
    pub type_name: bool,
    /// The declarator so far is an identifier, in brackets or not.
    pub bare: bool,
    /// The number of the token that the declarator so far declares.
    pub name: u32,
}
