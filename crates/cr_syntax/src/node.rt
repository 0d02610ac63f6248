ghost use Rattle.std.specs.Prelude.{◌≡◌, IfOk};

use cr_rows::Row;
use std::alloc::AllocError;

/// What a node is: one variant for each alternative of the grammar that makes a node. A node has a token of its own, or
/// at least two parts; an alternative that is one part alone makes none. Quoted words are tokens, the others parts.
#[derive(Clone, Copy, PartialEq, Eq, Debug)]
pub enum Kind {
    // External definitions (C11 6.9)
    /// specifiers declarator compound
    FunctionDefinition,
    // Declarations (6.7)
    /// specifiers [initdecl {"," initdecl}] ";"
    Declaration,
    /// declarator "=" initializer
    InitDeclarator,
    /// "{" initializer {"," initializer} [","] "}" (6.7.9)
    InitializerList,
    // Specifiers (6.7.1 to 6.7.4)
    /// specifier specifier {specifier}
    Specifiers,
    /// `typedef`
    Typedef,
    /// `extern`
    Extern,
    /// `static`
    Static,
    /// `auto`
    Auto,
    /// `register`
    Register,
    /// `inline`
    Inline,
    /// plain plain {plain}, without storage classes (6.7.2.1)
    PlainSpecifiers,
    /// `const`
    Const,
    /// `volatile`
    Volatile,
    /// `void`
    Void,
    /// `char`
    Char,
    /// `short`
    Short,
    /// `int`
    Int,
    /// `long`
    Long,
    /// `signed`
    Signed,
    /// `unsigned`
    Unsigned,
    /// `_Bool`
    Bool,
    /// an identifier that the scopes so far make a type (6.7.8)
    TypedefName,
    // Structures and enumerations (6.7.2)
    /// "struct" [identifier] "{" memberdecl {memberdecl} "}"
    StructContent,
    /// "struct" identifier
    StructTag,
    /// plain {plain} declarator {"," declarator} ";"
    MemberDeclaration,
    /// "enum" [identifier] "{" enumerator {"," enumerator} [","] "}"
    EnumContent,
    /// "enum" identifier
    EnumTag,
    /// identifier ["=" conditional]
    Enumerator,
    // Declarators (6.7.6)
    /// "*" {"const" | "volatile"} declarator, one star each
    PointerDeclarator,
    /// the declared identifier
    NameDeclarator,
    /// "(" declarator ")"
    GroupDeclarator,
    /// direct "[" [conditional] "]"
    ArrayDeclarator,
    /// direct "(" [parameters] ")"
    FunctionDeclarator,
    /// the one token `void`
    VoidParameters,
    /// parameter "," parameter {"," parameter}
    Parameters,
    /// parameter {"," parameter} "," "..."
    VariadicParameters,
    /// specifiers (declarator | abstract)
    Parameter,
    // Type names (6.7.7)
    /// "*" {"const" | "volatile"} [abstract]
    AbstractPointer,
    /// "(" abstract ")"
    AbstractGroup,
    /// "[" [conditional] "]"
    AbstractArray,
    /// an abstract array's or group's "[" [conditional] "]"
    AbstractArrayOf,
    /// plain {plain} abstract
    TypeName,
    // Statements (6.8)
    /// "{" {declaration | statement} "}"
    Compound,
    /// [expression] ";"
    ExpressionStatement,
    /// "if" "(" expression ")" statement ["else" statement]
    If,
    /// "switch" "(" expression ")" compound
    Switch,
    /// "while" "(" expression ")" statement
    While,
    /// "do" statement "while" "(" expression ")" ";"
    Do,
    /// "for" "(" (declaration | [expression] ";") [expression] ";" [expression] ")" statement
    For,
    /// identifier ":" statement
    Label,
    /// "case" conditional ":" statement
    Case,
    /// "default" ":" statement
    Default,
    /// "goto" identifier ";"
    Goto,
    /// "break" ";"
    Break,
    /// "continue" ";"
    Continue,
    /// "return" [expression] ";"
    Return,
    // Expressions (6.5)
    /// expression "," assignment (6.5.17)
    Comma,
    /// unary "=" assignment (6.5.16)
    Assign,
    /// `*=`
    MultiplyAssign,
    /// `/=`
    DivideAssign,
    /// `%=`
    RemainderAssign,
    /// `+=`
    AddAssign,
    /// `-=`
    SubtractAssign,
    /// `<<=`
    ShiftLeftAssign,
    /// `>>=`
    ShiftRightAssign,
    /// `&=`
    AndAssign,
    /// `^=`
    XorAssign,
    /// `|=`
    OrAssign,
    /// binary "?" expression ":" conditional (6.5.15)
    Conditional,
    /// `||` (6.5.14)
    LogicalOr,
    /// `&&` (6.5.13)
    LogicalAnd,
    /// `|` (6.5.12)
    Or,
    /// `^` (6.5.11)
    Xor,
    /// binary `&` (6.5.10)
    And,
    /// `==` (6.5.9)
    Equal,
    /// `!=`
    NotEqual,
    /// `<` (6.5.8)
    Less,
    /// `>`
    Greater,
    /// `<=`
    LessEqual,
    /// `>=`
    GreaterEqual,
    /// `<<` (6.5.7)
    ShiftLeft,
    /// `>>`
    ShiftRight,
    /// binary `+` (6.5.6)
    Add,
    /// binary `-`
    Subtract,
    /// binary `*` (6.5.5)
    Multiply,
    /// `/`
    Divide,
    /// `%`
    Remainder,
    /// "(" typename ")" cast (6.5.4)
    Cast,
    /// `++` unary (6.5.3)
    PreIncrement,
    /// `--` unary
    PreDecrement,
    /// `&` cast
    AddressOf,
    /// `*` cast
    Dereference,
    /// `+` cast
    Plus,
    /// `-` cast
    Minus,
    /// `~` cast
    Complement,
    /// `!` cast
    Not,
    /// "sizeof" unary
    SizeofExpression,
    /// "sizeof" "(" typename ")"
    SizeofType,
    /// identifier "(" [assignment {"," assignment}] ")" (6.5.2); the name is no part of its own
    Call,
    /// postfix "[" expression "]"
    Subscript,
    /// postfix "." identifier
    Member,
    /// postfix "->" identifier
    PointerMember,
    /// postfix `++`
    PostIncrement,
    /// postfix `--`
    PostDecrement,
    /// an identifier that is no type (6.5.1)
    Identifier,
    /// an integer constant
    Integer,
    /// a character constant
    Character,
    /// text {text}
    Text,
    /// "(" expression ")"
    Group,
}

/// A node of the syntax tree.
#[derive(Drop, Debug)]
pub struct Node {
    pub kind: Kind,
    /// The number of its first token.
    pub first: u32,
    /// The number of its last token.
    pub last: u32,
    /// The numbers of its parts, in order; each is below the node's own.
    pub parts: Row<u32>,
}

/// The number of a node or of a token. The error is one that doesn't fit, which counts as want of memory.
pub fn number_of(at: usize) -> Result<u32, AllocError>
    ensures { IfOk result (λ n. n ≡ at) }
{
    u32::try_from(at).map_err(|_| AllocError)
}
