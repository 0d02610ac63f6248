ghost use Rattle.std.specs.Prelude.{◌≡◌, ◌≤◌, ◌∷◌, [], length, slice_range};
ghost use Rattle.cr_syntax.specs.Words.{word_in, word_of, keyword_table, punctuator_table, entries_of};

use cr_tokens::{Token, TokenKind, same_spelling};

/// What a token is to the grammar: a keyword (C11 6.4.1), a punctuator (6.4.6), or one of the four
/// kinds whose spelling the grammar doesn't ask for.
#[derive(Clone, Copy, PartialEq, Eq, Debug)]
pub enum Word {
    /// An identifier.
    Identifier,
    /// An integer constant.
    Integer,
    /// A character constant.
    Character,
    /// A string literal.
    Text,
    /// `auto`
    Auto,
    /// `break`
    Break,
    /// `case`
    Case,
    /// `char`
    Char,
    /// `const`
    Const,
    /// `continue`
    Continue,
    /// `default`
    Default,
    /// `do`
    Do,
    /// `double`
    Double,
    /// `else`
    Else,
    /// `enum`
    Enum,
    /// `extern`
    Extern,
    /// `float`
    Float,
    /// `for`
    For,
    /// `goto`
    Goto,
    /// `if`
    If,
    /// `inline`
    Inline,
    /// `int`
    Int,
    /// `long`
    Long,
    /// `register`
    Register,
    /// `restrict`
    Restrict,
    /// `return`
    Return,
    /// `short`
    Short,
    /// `signed`
    Signed,
    /// `sizeof`
    Sizeof,
    /// `static`
    Static,
    /// `struct`
    Struct,
    /// `switch`
    Switch,
    /// `typedef`
    Typedef,
    /// `union`
    Union,
    /// `unsigned`
    Unsigned,
    /// `void`
    Void,
    /// `volatile`
    Volatile,
    /// `while`
    While,
    /// `_Alignas`
    Alignas,
    /// `_Alignof`
    Alignof,
    /// `_Atomic`
    Atomic,
    /// `_Bool`
    Bool,
    /// `_Complex`
    Complex,
    /// `_Generic`
    Generic,
    /// `_Imaginary`
    Imaginary,
    /// `_Noreturn`
    Noreturn,
    /// `_Static_assert`
    StaticAssert,
    /// `_Thread_local`
    ThreadLocal,
    /// `[`
    LeftBracket,
    /// `]`
    RightBracket,
    /// `(`
    LeftParen,
    /// `)`
    RightParen,
    /// `{`
    LeftBrace,
    /// `}`
    RightBrace,
    /// `.`
    Dot,
    /// `->`
    Arrow,
    /// `++`
    PlusPlus,
    /// `--`
    MinusMinus,
    /// `&`
    Ampersand,
    /// `*`
    Star,
    /// `+`
    Plus,
    /// `-`
    Minus,
    /// `~`
    Tilde,
    /// `!`
    Bang,
    /// `/`
    Slash,
    /// `%`
    Percent,
    /// `<<`
    LessLess,
    /// `>>`
    GreaterGreater,
    /// `<`
    Less,
    /// `>`
    Greater,
    /// `<=`
    LessEqual,
    /// `>=`
    GreaterEqual,
    /// `==`
    EqualEqual,
    /// `!=`
    BangEqual,
    /// `^`
    Caret,
    /// `|`
    Bar,
    /// `&&`
    AndAnd,
    /// `||`
    BarBar,
    /// `?`
    Question,
    /// `:`
    Colon,
    /// `;`
    Semicolon,
    /// `...`
    Ellipsis,
    /// `=`
    Equal,
    /// `*=`
    StarEqual,
    /// `/=`
    SlashEqual,
    /// `%=`
    PercentEqual,
    /// `+=`
    PlusEqual,
    /// `-=`
    MinusEqual,
    /// `<<=`
    LessLessEqual,
    /// `>>=`
    GreaterGreaterEqual,
    /// `&=`
    AmpersandEqual,
    /// `^=`
    CaretEqual,
    /// `|=`
    BarEqual,
    /// `,`
    Comma,
}

/// The keywords of C11 6.4.1, the commonest first, since they are sought in this order.
const KEYWORDS: [(&str, Word); 44] = [
    ("int", Word::Int),
    ("return", Word::Return),
    ("if", Word::If),
    ("static", Word::Static),
    ("const", Word::Const),
    ("unsigned", Word::Unsigned),
    ("char", Word::Char),
    ("long", Word::Long),
    ("short", Word::Short),
    ("void", Word::Void),
    ("struct", Word::Struct),
    ("for", Word::For),
    ("while", Word::While),
    ("else", Word::Else),
    ("volatile", Word::Volatile),
    ("signed", Word::Signed),
    ("sizeof", Word::Sizeof),
    ("goto", Word::Goto),
    ("break", Word::Break),
    ("case", Word::Case),
    ("default", Word::Default),
    ("switch", Word::Switch),
    ("do", Word::Do),
    ("enum", Word::Enum),
    ("typedef", Word::Typedef),
    ("continue", Word::Continue),
    ("union", Word::Union),
    ("extern", Word::Extern),
    ("auto", Word::Auto),
    ("double", Word::Double),
    ("float", Word::Float),
    ("inline", Word::Inline),
    ("register", Word::Register),
    ("restrict", Word::Restrict),
    ("_Bool", Word::Bool),
    ("_Alignas", Word::Alignas),
    ("_Alignof", Word::Alignof),
    ("_Atomic", Word::Atomic),
    ("_Complex", Word::Complex),
    ("_Generic", Word::Generic),
    ("_Imaginary", Word::Imaginary),
    ("_Noreturn", Word::Noreturn),
    ("_Static_assert", Word::StaticAssert),
    ("_Thread_local", Word::ThreadLocal),
];

/// The punctuators of C11 6.4.6 without the digraphs and `#`, the commonest first.
const PUNCTUATORS: [(&str, Word); 46] = [
    (";", Word::Semicolon),
    (",", Word::Comma),
    ("(", Word::LeftParen),
    (")", Word::RightParen),
    ("=", Word::Equal),
    ("{", Word::LeftBrace),
    ("}", Word::RightBrace),
    ("*", Word::Star),
    ("[", Word::LeftBracket),
    ("]", Word::RightBracket),
    ("+", Word::Plus),
    ("-", Word::Minus),
    ("&", Word::Ampersand),
    ("<", Word::Less),
    (".", Word::Dot),
    ("->", Word::Arrow),
    (">", Word::Greater),
    ("==", Word::EqualEqual),
    ("!=", Word::BangEqual),
    ("!", Word::Bang),
    ("<=", Word::LessEqual),
    (">=", Word::GreaterEqual),
    ("++", Word::PlusPlus),
    ("--", Word::MinusMinus),
    ("&&", Word::AndAnd),
    ("||", Word::BarBar),
    ("?", Word::Question),
    (":", Word::Colon),
    ("/", Word::Slash),
    ("%", Word::Percent),
    ("<<", Word::LessLess),
    (">>", Word::GreaterGreater),
    ("|", Word::Bar),
    ("^", Word::Caret),
    ("~", Word::Tilde),
    ("+=", Word::PlusEqual),
    ("-=", Word::MinusEqual),
    ("*=", Word::StarEqual),
    ("&=", Word::AmpersandEqual),
    ("|=", Word::BarEqual),
    ("^=", Word::CaretEqual),
    ("<<=", Word::LessLessEqual),
    (">>=", Word::GreaterGreaterEqual),
    ("/=", Word::SlashEqual),
    ("%=", Word::PercentEqual),
    ("...", Word::Ellipsis),
];

/// The word of a token of `file`. A keyword or punctuator of another spelling than the tables', which no
/// file's tokens have, counts as an identifier.
pub fn word_at(file: &[u8], token: &Token) -> Word
    requires begins { token.now.start ≤ token.now.end }
    requires ends { token.now.end ≤ length file.now }
    ensures { result ≡ word_of token.now.kind (slice_range file.now token.now.start token.now.end) }
{
    let spelling = &file[token.start as usize..token.end as usize];
    match token.kind {
        TokenKind::Identifier => Word::Identifier,
        TokenKind::Integer => Word::Integer,
        TokenKind::Character => Word::Character,
        TokenKind::Text => Word::Text,
        TokenKind::Keyword => find(&KEYWORDS, spelling),
        TokenKind::Punctuator => punctuator(spelling),
    }
}

fn punctuator(spelling: &[u8]) -> Word
    ensures { result ≡ word_in punctuator_table spelling.now }
{
    match spelling {
        [byte] => punctuator_of(*byte),
        _ => find(&PUNCTUATORS, spelling),
    }
}

// The punctuator of one byte. The common ones are told by it, so that for most tokens no table is sought through.
fn punctuator_of(byte: u8) -> Word
    ensures { result ≡ word_in punctuator_table (byte ∷ []) }
{
    match byte {
        b';' => Word::Semicolon,
        b',' => Word::Comma,
        b'(' => Word::LeftParen,
        b')' => Word::RightParen,
        b'=' => Word::Equal,
        b'{' => Word::LeftBrace,
        b'}' => Word::RightBrace,
        b'*' => Word::Star,
        b'[' => Word::LeftBracket,
        b']' => Word::RightBracket,
        b'+' => Word::Plus,
        b'-' => Word::Minus,
        b'&' => Word::Ampersand,
        b'<' => Word::Less,
        b'.' => Word::Dot,
        b'>' => Word::Greater,
        _ => find(&PUNCTUATORS, &[byte]),
    }
}

fn find(table: &[(&str, Word)], spelling: &[u8]) -> Word
    ensures { result ≡ word_in (entries_of table.now) spelling.now }
{
    for (text, word) in table {
        if same_spelling(text.as_bytes(), spelling) {
            return *word;
        }
    }
    Word::Identifier
}
