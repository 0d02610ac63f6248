ghost use Rattle.std.specs.Prelude.{◌≡◌, ◌↔◌, ◌-◌, ◌^◌, IsTrue};
ghost use Rattle.cr_ints.specs.IntKind.{width_of, is_signed, least_of, greatest_of, Represents, can_represent, can_represent_all, rank_of, unsigned_of};

/// An integer type of the subset (C11 6.2.5). An enumerated type is `Int` or `UInt` itself.
#[derive(Clone, Copy, PartialEq, Eq, Debug)]
pub enum IntKind {
    /// `_Bool`
    Bool,
    /// `char`, which is signed here
    Char,
    /// `signed char`
    SChar,
    /// `unsigned char`
    UChar,
    /// `short`
    Short,
    /// `unsigned short`
    UShort,
    /// `int`
    Int,
    /// `unsigned int`
    UInt,
    /// `long`
    Long,
    /// `unsigned long`
    ULong,
    /// `long long`
    LLong,
    /// `unsigned long long`
    ULLong,
}

impl IntKind {
    /// The bits of a value, the sign's included. `_Bool` has one.
    pub fn width(self) -> u32
        ensures { result ≡ width_of self }
    {
        match self {
            IntKind::Bool => 1,
            IntKind::Char | IntKind::SChar | IntKind::UChar => 8,
            IntKind::Short | IntKind::UShort => 16,
            IntKind::Int | IntKind::UInt => 32,
            IntKind::Long | IntKind::ULong | IntKind::LLong | IntKind::ULLong => 64,
        }
    }

    /// Whether the kind has negative values.
    pub fn is_signed(self) -> bool
        ensures { result ≡ is_signed self }
    {
        match self {
            IntKind::Char | IntKind::SChar | IntKind::Short | IntKind::Int => true,
            IntKind::Long | IntKind::LLong => true,
            IntKind::Bool | IntKind::UChar | IntKind::UShort | IntKind::UInt => false,
            IntKind::ULong | IntKind::ULLong => false,
        }
    }

    /// The least value.
    pub fn least(self) -> i128
        ensures { result ≡ least_of self }
    {
        match self {
            IntKind::Char | IntKind::SChar => i128::from(i8::MIN),
            IntKind::Short => i128::from(i16::MIN),
            IntKind::Int => i128::from(i32::MIN),
            IntKind::Long | IntKind::LLong => i128::from(i64::MIN),
            _ => 0,
        }
    }

    /// The greatest value.
    pub fn greatest(self) -> i128
        ensures { result ≡ greatest_of self }
    {
        match self {
            IntKind::Bool => 1,
            IntKind::Char | IntKind::SChar => i128::from(i8::MAX),
            IntKind::UChar => i128::from(u8::MAX),
            IntKind::Short => i128::from(i16::MAX),
            IntKind::UShort => i128::from(u16::MAX),
            IntKind::Int => i128::from(i32::MAX),
            IntKind::UInt => i128::from(u32::MAX),
            IntKind::Long | IntKind::LLong => i128::from(i64::MAX),
            IntKind::ULong | IntKind::ULLong => i128::from(u64::MAX),
        }
    }

    /// Whether the value lies in the kind's range.
    pub fn can_represent(self, value: i128) -> bool
        ensures test { result ≡ can_represent self value }
        ensures fact { IsTrue result ↔ Represents self value }
    {
        self.least() <= value && value <= self.greatest()
    }

    /// Whether all values of the other kind lie in this kind's range.
    pub fn can_represent_all(self, other: IntKind) -> bool
        ensures { result ≡ can_represent_all self other }
    {
        self.can_represent(other.least()) && self.can_represent(other.greatest())
    }

    /// The unsigned kind of the same size (C11 6.2.5p6); an unsigned kind, and `_Bool`, is its own.
    pub fn to_unsigned(self) -> IntKind
        ensures { result ≡ unsigned_of self }
    {
        match self {
            IntKind::Char | IntKind::SChar => IntKind::UChar,
            IntKind::Short => IntKind::UShort,
            IntKind::Int => IntKind::UInt,
            IntKind::Long => IntKind::ULong,
            IntKind::LLong => IntKind::ULLong,
            _ => self,
        }
    }

    /// The conversion rank (C11 6.3.1.1p1), counted from that of `_Bool`.
    pub fn rank(self) -> u32
        ensures { result ≡ rank_of self }
    {
        match self {
            IntKind::Bool => 0,
            IntKind::Char | IntKind::SChar | IntKind::UChar => 1,
            IntKind::Short | IntKind::UShort => 2,
            IntKind::Int | IntKind::UInt => 3,
            IntKind::Long | IntKind::ULong => 4,
            IntKind::LLong | IntKind::ULLong => 5,
        }
    }

    // All bits of a kind of this width, as the lowest bits of a number.
    pub(crate) fn mask(self) -> u64
        ensures { result ≡ 2 ^ width_of self - 1 }
    {
        match self {
            IntKind::Bool => 1,
            IntKind::Char | IntKind::SChar | IntKind::UChar => u64::from(u8::MAX),
            IntKind::Short | IntKind::UShort => u64::from(u16::MAX),
            IntKind::Int | IntKind::UInt => u64::from(u32::MAX),
            IntKind::Long | IntKind::ULong | IntKind::LLong | IntKind::ULLong => u64::MAX,
        }
    }
}
