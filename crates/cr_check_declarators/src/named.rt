ghost use Rattle.std.specs.Prelude.{◌≡◌, ◌<◌, IfOk, OnOk, length};
ghost use Rattle.cr_check_types.specs.Types.{type_at, IsRow, Grows};
ghost use Rattle.cr_check_declarators.specs.Specifiers.{integer_by, leaf_by, leaf_of, is_one_type_of, leaf_type, named_type};

use crate::words::{Base, Length, Sign, Specified};
use cr_check_types::{Shape, Table};
use cr_ints::IntKind;
use cr_syntax::CType;
use std::alloc::AllocError;

/// What type specifiers name.
#[derive(Clone, Copy)]
enum Leaf {
    /// the type of a structure, an enumeration or a typedef name
    Given,
    Void,
    Integer(IntKind),
    /// nothing
    Unknown,
}

/// Whether the type specifiers are one of the lists of C11 6.7.2p2 (K1).
pub fn is_one_type(specified: Specified) -> bool
    ensures { result ≡ is_one_type_of specified }
{
    match leaf_of(specified) {
        Leaf::Unknown => false,
        _ => true,
    }
}

/// A row of the type that specifiers name, with their qualifiers. A structure, an enumeration or a typedef name has the type of
/// the row `given`. It is that of no type where they name none.
pub fn named_type(table: &mut Table, specified: Specified, given: u32) -> Result<u32, AllocError>
    requires { given < length table.old }
    ensures made { IfOk result (λ r. IsRow table.new r (named_type specified (type_at table.old given))) }
    ensures grows { OnOk result (Grows table.old table.new) }
{
    let row = unqualified(table, leaf_of(specified), given)?;
    table.qualified(row, specified.constant, specified.volatile.is_some())
}

fn unqualified(table: &mut Table, leaf: Leaf, given: u32) -> Result<u32, AllocError>
    requires { given < length table.old }
    ensures made { IfOk result (λ r. IsRow table.new r (leaf_type leaf (type_at table.old given))) }
    ensures grows { OnOk result (Grows table.old table.new) }
{
    match leaf {
        Leaf::Given => Ok(given),
        Leaf::Void => table.add(Shape::plain(CType::Void)),
        Leaf::Integer(kind) => table.add(Shape::plain(CType::Int(kind))),
        Leaf::Unknown => table.add(Shape::plain(CType::Unknown)),
    }
}

fn leaf_of(specified: Specified) -> Leaf
    ensures { result ≡ leaf_of specified }
{
    let length = specified.length;
    let sign = specified.sign;
    match (specified.base, length, sign) {
        (Base::Void, Length::Unsaid, Sign::Unsaid) => Leaf::Void,
        (Base::Char, Length::Unsaid, Sign::Unsaid) => Leaf::Integer(IntKind::Char),
        (Base::Char, Length::Unsaid, Sign::Signed) => Leaf::Integer(IntKind::SChar),
        (Base::Char, Length::Unsaid, Sign::Unsigned) => Leaf::Integer(IntKind::UChar),
        (Base::Bool, Length::Unsaid, Sign::Unsaid) => Leaf::Integer(IntKind::Bool),
        (Base::Given, Length::Unsaid, Sign::Unsaid) => Leaf::Given,
        (Base::Int, _, _) => integer_by(length, sign),
        (Base::Unsaid, Length::Unsaid, Sign::Unsaid) => Leaf::Unknown,
        (Base::Unsaid, _, _) => integer_by(length, sign),
        _ => Leaf::Unknown,
    }
}

fn integer_by(length: Length, sign: Sign) -> Leaf
    ensures { result ≡ integer_by length sign }
{
    match (length, sign) {
        (Length::Short, Sign::Unsaid | Sign::Signed) => Leaf::Integer(IntKind::Short),
        (Length::Short, Sign::Unsigned) => Leaf::Integer(IntKind::UShort),
        (Length::Unsaid, Sign::Unsaid | Sign::Signed) => Leaf::Integer(IntKind::Int),
        (Length::Unsaid, Sign::Unsigned) => Leaf::Integer(IntKind::UInt),
        (Length::Long, Sign::Unsaid | Sign::Signed) => Leaf::Integer(IntKind::Long),
        (Length::Long, Sign::Unsigned) => Leaf::Integer(IntKind::ULong),
        (Length::LongLong, Sign::Unsaid | Sign::Signed) => Leaf::Integer(IntKind::LLong),
        (Length::LongLong, Sign::Unsigned) => Leaf::Integer(IntKind::ULLong),
        _ => Leaf::Unknown,
    }
}
