ghost use Rattle.std.specs.Prelude.{◌≡◌};
ghost use Rattle.cr_memory.specs.Kind.{place_of};

use cr_ints::IntKind;

/// A pointer: null, or a cell of an object, or the end of an array in it.
#[derive(Clone, Copy, PartialEq, Eq, Debug)]
pub enum Pointer {
    /// The null pointer (C11 6.3.2.3p3).
    Null,
    /// The cell `cell` of the object `object`, in an array of such elements that has the cells from `low`
    /// to below `high`. A pointer to the end of the array has the cell `high`. A single object is an array of one.
    At {
        object: u32,
        cell: u32,
        low: u32,
        high: u32,
        element: Element,
    },
}

/// What a pointer's array has: elements of so many cells, and of a type that a number names, which the memory never looks at.
#[derive(Clone, Copy, PartialEq, Eq, Debug)]
pub struct Element {
    pub cells: u32,
    pub of: u32,
}

/// The place of an integer type in their list.
pub fn place_of(kind: IntKind) -> u32
    ensures { result ≡ place_of kind }
{
    match kind {
        IntKind::Bool => 0,
        IntKind::Char => 1,
        IntKind::SChar => 2,
        IntKind::UChar => 3,
        IntKind::Short => 4,
        IntKind::UShort => 5,
        IntKind::Int => 6,
        IntKind::UInt => 7,
        IntKind::Long => 8,
        IntKind::ULong => 9,
        IntKind::LLong => 10,
        IntKind::ULLong => 11,
    }
}

/// The kind of a scalar: an integer type, or a pointer type by a number for what it points to.
#[derive(Clone, Copy, PartialEq, Eq, Debug)]
pub enum Scalar {
    Int(IntKind),
    Pointer(u32),
}

/// What a scalar part of an object holds.
#[derive(Clone, Copy, PartialEq, Eq, Debug)]
pub enum Cell {
    /// Nothing was stored yet.
    Unset,
    Number(i128),
    Pointer(Pointer),
}

/// What keeps a cell from being written.
#[derive(Clone, Copy, PartialEq, Eq, Debug)]
pub enum Guard {
    Free,
    /// It was defined const (C11 6.7.3p6).
    Constant,
    /// It is part of a string literal (6.4.5p7).
    Literal,
}

/// Why a call on the memory has no answer.
#[derive(Clone, Copy, PartialEq, Eq, Debug)]
pub enum Trap {
    /// The behaviour is undefined: the number of the case, from U6 on.
    Undefined(u8),
    /// The program leaves the profile: the number of the case, from N3 on.
    Left(u8),
    /// There is no memory left.
    NoMemory,
}

/// U6: a pointer sum outside its array, or on null (C11 6.5.6p8).
pub const SUM_OUTSIDE: u8 = 6;
/// U7: a difference of pointers that don't point into one array (6.5.6p9).
pub const DIFFERENT_ARRAYS: u8 = 7;
/// U8: an order of pointers that don't point into one object (6.5.8p5).
pub const DIFFERENT_OBJECTS: u8 = 8;
/// U9: an access through null or at the end of an array (6.5.3.2p4, 6.5.6p8).
pub const NULL_OR_END: u8 = 9;
/// U10: the use of a pointer whose object's lifetime has ended (6.2.4p2).
pub const ENDED: u8 = 10;
/// U11: the read of a scalar that was never set (6.3.2.1p2).
pub const UNSET: u8 = 11;
/// U13: a write to a string literal (6.4.5p7).
pub const LITERAL_WRITTEN: u8 = 13;
/// U14: a write to what was defined const (6.7.3p6).
pub const CONSTANT_WRITTEN: u8 = 14;
/// N3: no room for one more object.
pub const NO_ROOM: u8 = 3;
/// N5: an access through another type than the cell's.
pub const OTHER_TYPE: u8 = 5;
/// N6: whether the end of one object is another one is left open (6.5.9p6).
pub const END_COMPARED: u8 = 6;
