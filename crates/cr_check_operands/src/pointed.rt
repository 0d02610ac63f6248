ghost use Rattle.std.specs.Prelude.{◌≡◌, ◌<◌, length};
ghost use Rattle.cr_check_types.specs.Types.{type_at};
ghost use Rattle.cr_check_operands.specs.Rules.{is_void, is_plain_void, constant_in, volatile_in, are_alike, are_related, keeps_volatile, keeps_qualifiers};

use cr_check_types::Table;
use cr_syntax::CType;

/// The qualifiers of a type; those of an array are its elements' (C11 6.7.3p9).
#[derive(Clone, Copy)]
pub struct Qualifiers {
    pub constant: bool,
    pub volatile: bool,
}

pub(crate) fn qualifiers_of(table: &Table, row: u32) -> Qualifiers
    requires { row < length table.now }
    ensures constant { result.constant ≡ constant_in (type_at table.now row) }
    ensures volatile { result.volatile ≡ volatile_in (type_at table.now row) }
{
    let mut inner = row;
    loop {
        let shape = table.shape(inner);
        match shape.of {
            CType::Array(below, _) => inner = below,
            _ => {
                return Qualifiers {
                    constant: shape.constant,
                    volatile: shape.volatile,
                };
            }
        }
    }
}

pub(crate) fn is_void(table: &Table, row: u32) -> bool
    requires { row < length table.now }
    ensures { result ≡ is_void (type_at table.now row) }
{
    match table.shape(row).of {
        CType::Void => true,
        _ => false,
    }
}

/// Whether a type is `void` without qualifiers.
pub(crate) fn is_plain_void(table: &Table, row: u32) -> bool
    requires { row < length table.now }
    ensures { result ≡ is_plain_void (type_at table.now row) }
{
    let shape = table.shape(row);
    match shape.of {
        CType::Void => !shape.constant && !shape.volatile,
        _ => false,
    }
}

/// Whether the types are compatible, qualifiers aside.
pub(crate) fn are_alike(table: &Table, left: u32, right: u32) -> bool
    requires left { left < length table.now }
    requires right { right < length table.now }
    ensures { result ≡ are_alike (type_at table.now left) (type_at table.now right) }
{
    table.are_compatible_bare(left, right)
}

/// Whether they are alike, or one is void.
pub(crate) fn are_related(table: &Table, left: u32, right: u32) -> bool
    requires left { left < length table.now }
    requires right { right < length table.now }
    ensures { result ≡ are_related (type_at table.now left) (type_at table.now right) }
{
    are_alike(table, left, right) || is_void(table, left) || is_void(table, right)
}

/// Whether the first type is volatile where the second is.
pub(crate) fn keeps_volatile(table: &Table, left: u32, right: u32) -> bool
    requires left { left < length table.now }
    requires right { right < length table.now }
    ensures { result ≡ keeps_volatile (type_at table.now left) (type_at table.now right) }
{
    qualifiers_of(table, left).volatile || !qualifiers_of(table, right).volatile
}

/// Whether the first type has all qualifiers of the second.
pub(crate) fn keeps_qualifiers(table: &Table, left: u32, right: u32) -> bool
    requires left { left < length table.now }
    requires right { right < length table.now }
    ensures { result ≡ keeps_qualifiers (type_at table.now left) (type_at table.now right) }
{
    let to = qualifiers_of(table, left);
    let from = qualifiers_of(table, right);
    (to.constant || !from.constant) && (to.volatile || !from.volatile)
}
