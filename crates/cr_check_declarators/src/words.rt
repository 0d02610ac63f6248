ghost use Rattle.std.specs.Prelude.{◌≡◌, ◌||◌};
ghost use Rattle.cr_check_declarators.specs.Specifiers.{nothing, is_typedef_word, stored, base_of, first_of, both_bases, both_lengths, both_signs, both_storages, specified_by, joined_of};

use cr_syntax::Kind;

/// What the type specifiers other than `short`, `long`, `signed` and `unsigned` say (C11 6.7.2p1).
#[derive(Clone, Copy)]
pub enum Base {
    /// there is none
    Unsaid,
    /// `void`
    Void,
    /// `char`
    Char,
    /// `int`
    Int,
    /// `_Bool`
    Bool,
    /// a structure, an enumeration or a typedef name, whose type is known beside
    Given,
    /// there are several
    Several,
}

/// What `short` and `long` say.
#[derive(Clone, Copy)]
pub enum Length {
    Unsaid,
    Short,
    Long,
    LongLong,
    /// what is none of these
    Several,
}

/// What `signed` and `unsigned` say.
#[derive(Clone, Copy)]
pub enum Sign {
    Unsaid,
    Signed,
    Unsigned,
    /// there are several
    Several,
}

/// A storage-class specifier (6.7.1p1).
#[derive(Clone, Copy)]
pub enum Class {
    Typedef,
    Extern,
    Static,
    Auto,
    Register,
}

/// The storage-class specifiers of a declaration.
#[derive(Clone, Copy)]
pub struct Storage {
    /// the first
    pub class: Class,
    /// its token
    pub token: u32,
    /// the token of the second, where there is one
    pub second: Option<u32>,
    /// whether `typedef` is among them: then type names are declared, whatever else stands beside it
    pub typedefs: bool,
}

/// What some specifiers say, in whatever order they stand (6.7p1).
#[derive(Clone, Copy)]
pub struct Specified {
    pub base: Base,
    pub length: Length,
    pub sign: Sign,
    pub constant: bool,
    /// the token of the first `volatile`
    pub volatile: Option<u32>,
    pub storage: Option<Storage>,
    /// the token of the first `inline`
    pub inline: Option<u32>,
    /// whether they declare a tag or enumerators
    pub declares: bool,
}

/// What no specifiers say.
pub const UNSAID: Specified = Specified {
    base: Base::Unsaid,
    length: Length::Unsaid,
    sign: Sign::Unsaid,
    constant: false,
    volatile: None,
    storage: None,
    inline: None,
    declares: false,
};

/// What one specifier says, by its kind and its token. `declares` is whether it declares a tag or enumerators.
pub fn specifier(kind: Kind, token: u32, declares: bool) -> Specified
    ensures { result ≡ specified_by kind token declares }
{
    match kind {
        Kind::Typedef => stored(Class::Typedef, token),
        Kind::Extern => stored(Class::Extern, token),
        Kind::Static => stored(Class::Static, token),
        Kind::Auto => stored(Class::Auto, token),
        Kind::Register => stored(Class::Register, token),
        Kind::Inline => Specified {
            inline: Some(token),
            ..UNSAID
        },
        Kind::Const => Specified {
            constant: true,
            ..UNSAID
        },
        Kind::Volatile => Specified {
            volatile: Some(token),
            ..UNSAID
        },
        Kind::Short => sized(Length::Short),
        Kind::Long => sized(Length::Long),
        Kind::Signed => signed(Sign::Signed),
        Kind::Unsigned => signed(Sign::Unsigned),
        kind => Specified {
            base: base_of(kind),
            declares,
            ..UNSAID
        },
    }
}

fn stored(class: Class, token: u32) -> Specified
    ensures { result ≡ stored class token }
{
    Specified {
        storage: Some(Storage {
            class,
            token,
            second: None,
            typedefs: is_typedef_word(class),
        }),
        ..UNSAID
    }
}

fn is_typedef_word(class: Class) -> bool
    ensures { result ≡ is_typedef_word class }
{
    match class {
        Class::Typedef => true,
        _ => false,
    }
}

fn sized(length: Length) -> Specified
    ensures { result ≡ record nothing { length = length } }
{
    Specified { length, ..UNSAID }
}

fn signed(sign: Sign) -> Specified
    ensures { result ≡ record nothing { sign = sign } }
{
    Specified { sign, ..UNSAID }
}

fn base_of(kind: Kind) -> Base
    ensures { result ≡ base_of kind }
{
    match kind {
        Kind::Void => Base::Void,
        Kind::Char => Base::Char,
        Kind::Int => Base::Int,
        Kind::Bool => Base::Bool,
        Kind::StructContent | Kind::StructTag => Base::Given,
        Kind::EnumContent | Kind::EnumTag => Base::Given,
        Kind::TypedefName => Base::Given,
        _ => Base::Unsaid,
    }
}

/// What specifiers and those behind them say together.
pub fn joined(left: Specified, right: Specified) -> Specified
    ensures { result ≡ joined_of left right }
{
    Specified {
        base: both_bases(left.base, right.base),
        length: both_lengths(left.length, right.length),
        sign: both_signs(left.sign, right.sign),
        constant: left.constant || right.constant,
        volatile: first_of(left.volatile, right.volatile),
        storage: both_storages(left.storage, right.storage),
        inline: first_of(left.inline, right.inline),
        declares: left.declares || right.declares,
    }
}

/// The first of two that is there.
pub(crate) fn first_of(left: Option<u32>, right: Option<u32>) -> Option<u32>
    ensures { result ≡ first_of left right }
{
    match left {
        Some(token) => Some(token),
        None => right,
    }
}

fn both_bases(left: Base, right: Base) -> Base
    ensures { result ≡ both_bases left right }
{
    match (left, right) {
        (Base::Unsaid, _) => right,
        (_, Base::Unsaid) => left,
        _ => Base::Several,
    }
}

fn both_lengths(left: Length, right: Length) -> Length
    ensures { result ≡ both_lengths left right }
{
    match (left, right) {
        (Length::Unsaid, _) => right,
        (_, Length::Unsaid) => left,
        (Length::Long, Length::Long) => Length::LongLong,
        _ => Length::Several,
    }
}

fn both_signs(left: Sign, right: Sign) -> Sign
    ensures { result ≡ both_signs left right }
{
    match (left, right) {
        (Sign::Unsaid, _) => right,
        (_, Sign::Unsaid) => left,
        _ => Sign::Several,
    }
}

fn both_storages(left: Option<Storage>, right: Option<Storage>) -> Option<Storage>
    ensures { result ≡ both_storages left right }
{
    match (left, right) {
        (None, _) => right,
        (Some(_), None) => left,
        (Some(one), Some(other)) => Some(Storage {
            second: first_of(one.second, Some(other.token)),
            typedefs: one.typedefs || other.typedefs,
            ..one
        }),
    }
}
