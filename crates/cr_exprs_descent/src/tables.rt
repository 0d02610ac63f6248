ghost use Rattle.std.specs.Prelude.{◌≡◌, ◌+◌, ◌<◌, IsSome, IfSome, length};
ghost use Rattle.cr_syntax.specs.Words.{word_at};
ghost use Rattle.cr_syntax_machine.specs.MachineBody.{operators, specifier_words};
ghost use Rattle.cr_exprs_descent.specs.Source.{IsReadable, text_of};
ghost use Rattle.cr_exprs_descent.specs.Tables.{kind_of, kind_of_word, next_level, level_of};

use crate::source::Source;
use cr_syntax::{Kind, Part, Word};

/// Assignment operators (C11 6.5.16).
pub(crate) const ASSIGNMENT: [(Word, Kind); 11] = [
    (Word::Equal, Kind::Assign),
    (Word::StarEqual, Kind::MultiplyAssign),
    (Word::SlashEqual, Kind::DivideAssign),
    (Word::PercentEqual, Kind::RemainderAssign),
    (Word::PlusEqual, Kind::AddAssign),
    (Word::MinusEqual, Kind::SubtractAssign),
    (Word::LessLessEqual, Kind::ShiftLeftAssign),
    (Word::GreaterGreaterEqual, Kind::ShiftRightAssign),
    (Word::AmpersandEqual, Kind::AndAssign),
    (Word::CaretEqual, Kind::XorAssign),
    (Word::BarEqual, Kind::OrAssign),
];

// The binary operators, level by level (6.5.5 to 6.5.14).
const LOGICAL_OR: [(Word, Kind); 1] = [(Word::BarBar, Kind::LogicalOr)];

const LOGICAL_AND: [(Word, Kind); 1] = [(Word::AndAnd, Kind::LogicalAnd)];

const OR: [(Word, Kind); 1] = [(Word::Bar, Kind::Or)];

const XOR: [(Word, Kind); 1] = [(Word::Caret, Kind::Xor)];

const AND: [(Word, Kind); 1] = [(Word::Ampersand, Kind::And)];

const EQUALITY: [(Word, Kind); 2] = [
    (Word::EqualEqual, Kind::Equal),
    (Word::BangEqual, Kind::NotEqual),
];

const RELATIONAL: [(Word, Kind); 4] = [
    (Word::Less, Kind::Less),
    (Word::Greater, Kind::Greater),
    (Word::LessEqual, Kind::LessEqual),
    (Word::GreaterEqual, Kind::GreaterEqual),
];

const SHIFT: [(Word, Kind); 2] = [
    (Word::LessLess, Kind::ShiftLeft),
    (Word::GreaterGreater, Kind::ShiftRight),
];

const ADDITIVE: [(Word, Kind); 2] = [(Word::Plus, Kind::Add), (Word::Minus, Kind::Subtract)];

const MULTIPLICATIVE: [(Word, Kind); 3] = [
    (Word::Star, Kind::Multiply),
    (Word::Slash, Kind::Divide),
    (Word::Percent, Kind::Remainder),
];

/// Operators before a unary expression (6.5.3).
pub(crate) const UNARY_PREFIXES: [(Word, Kind); 2] = [
    (Word::PlusPlus, Kind::PreIncrement),
    (Word::MinusMinus, Kind::PreDecrement),
];

/// Operators before a cast (6.5.3).
pub(crate) const CAST_PREFIXES: [(Word, Kind); 6] = [
    (Word::Ampersand, Kind::AddressOf),
    (Word::Star, Kind::Dereference),
    (Word::Plus, Kind::Plus),
    (Word::Minus, Kind::Minus),
    (Word::Tilde, Kind::Complement),
    (Word::Bang, Kind::Not),
];

/// Constants (6.5.1).
pub(crate) const CONSTANTS: [(Word, Kind); 2] = [
    (Word::Integer, Kind::Integer),
    (Word::Character, Kind::Character),
];

/// Operators behind a postfix expression (6.5.2).
pub(crate) const POSTFIX: [(Word, Kind); 2] = [
    (Word::PlusPlus, Kind::PostIncrement),
    (Word::MinusMinus, Kind::PostDecrement),
];

/// The words that are a specifier by themselves (6.7.1 to 6.7.4), the plain ones last.
const SPECIFIERS: [(Word, Kind); 16] = [
    (Word::Typedef, Kind::Typedef),
    (Word::Extern, Kind::Extern),
    (Word::Static, Kind::Static),
    (Word::Auto, Kind::Auto),
    (Word::Register, Kind::Register),
    (Word::Inline, Kind::Inline),
    (Word::Const, Kind::Const),
    (Word::Volatile, Kind::Volatile),
    (Word::Void, Kind::Void),
    (Word::Char, Kind::Char),
    (Word::Short, Kind::Short),
    (Word::Int, Kind::Int),
    (Word::Long, Kind::Long),
    (Word::Signed, Kind::Signed),
    (Word::Unsigned, Kind::Unsigned),
    (Word::Bool, Kind::Bool),
];

/// Where the plain specifiers begin.
const FIRST_PLAIN: usize = 6;

/// The kind that a table gives the word that stands here.
pub(crate) fn kind_in(table: &[(Word, Kind)], source: &Source, at: usize) -> Option<Kind>
    requires { IsReadable source.now }
    ensures kind { result ≡ kind_of table.now (word_at (text_of source.now) at) }
    ensures inside { IsSome result → at < length source.now.tokens.now }
{
    match source.words.get(at) {
        Some(word) => find(table, *word),
        None => None,
    }
}

fn find(table: &[(Word, Kind)], found: Word) -> Option<Kind>
    ensures { result ≡ kind_of_word table.now found }
{
    for (word, kind) in table {
        if found == *word {
            return Some(*kind);
        }
    }
    None
}

/// The kind of the operator of a level that stands here.
pub(crate) fn operator_in(part: Part, source: &Source, at: usize) -> Option<Kind>
    requires { IsReadable source.now }
    ensures kind { result ≡ kind_of (operators part) (word_at (text_of source.now) at) }
    ensures inside { IsSome result → at < length source.now.tokens.now }
{
    match part {
        Part::LogicalOr => kind_in(&LOGICAL_OR, source, at),
        Part::LogicalAnd => kind_in(&LOGICAL_AND, source, at),
        Part::Or => kind_in(&OR, source, at),
        Part::Xor => kind_in(&XOR, source, at),
        Part::And => kind_in(&AND, source, at),
        Part::Equality => kind_in(&EQUALITY, source, at),
        Part::Relational => kind_in(&RELATIONAL, source, at),
        Part::Shift => kind_in(&SHIFT, source, at),
        Part::Additive => kind_in(&ADDITIVE, source, at),
        Part::Multiplicative => kind_in(&MULTIPLICATIVE, source, at),
        _ => None,
    }
}

/// The next tighter level of a level of binary operators; behind the tightest comes a cast.
pub(crate) fn tighter(part: Part) -> Option<Part>
    ensures next { result ≡ next_level part }
    ensures level { IfSome result (λ q. level_of part ≡ level_of q + 1) }
{
    match part {
        Part::LogicalOr => Some(Part::LogicalAnd),
        Part::LogicalAnd => Some(Part::Or),
        Part::Or => Some(Part::Xor),
        Part::Xor => Some(Part::And),
        Part::And => Some(Part::Equality),
        Part::Equality => Some(Part::Relational),
        Part::Relational => Some(Part::Shift),
        Part::Shift => Some(Part::Additive),
        Part::Additive => Some(Part::Multiplicative),
        _ => None,
    }
}

/// The kind of the word that is a specifier of a row by itself.
pub(crate) fn specifier_in(part: Part, source: &Source, at: usize) -> Option<Kind>
    requires { IsReadable source.now }
    ensures kind { result ≡ kind_of (specifier_words part) (word_at (text_of source.now) at) }
    ensures inside { IsSome result → at < length source.now.tokens.now }
{
    match part {
        Part::Specifiers => kind_in(&SPECIFIERS, source, at),
        _ => kind_in(&SPECIFIERS[FIRST_PLAIN..], source, at),
    }
}
