ghost use Rattle.std.specs.Prelude.{◌≡◌, ◌<◌, length};
ghost use Rattle.cr_check_types.specs.Types.{type_at};
ghost use Rattle.cr_check_declarators.specs.Specifiers.{may_stand, storage_fault_of, declares_names, inline_fault_of, is_scalar_leaf, has_scalars, is_member, volatile_fault_of};

use crate::words::{Class, Specified};
use cr_check_enclosing::Place;
use cr_check_types::Table;
use cr_syntax::CType;

/// The token of a storage-class specifier that may not stand in its place, or not beside another (K2). `function` is whether a
/// declarator there declares a function.
pub fn storage_fault(specified: Specified, place: Place, function: bool) -> Option<u32>
    ensures { result ≡ storage_fault_of specified place function }
{
    match specified.storage {
        None => None,
        Some(storage) => {
            if may_stand(place, function, storage.class) {
                storage.second
            } else {
                Some(storage.token)
            }
        }
    }
}

fn may_stand(place: Place, function: bool, class: Class) -> bool
    ensures { result ≡ may_stand place function class }
{
    match (place, class) {
        (Place::File, Class::Auto | Class::Register) => false,
        (Place::File, _) => true,
        (Place::Definition, Class::Extern | Class::Static) => true,
        (Place::Definition, _) => false,
        (Place::Block, Class::Extern | Class::Typedef) => true,
        (Place::Block, _) => !function,
        (Place::Clause, Class::Auto | Class::Register) => !function,
        (Place::Clause, _) => false,
        (Place::Parameter, Class::Register) => true,
        (Place::Parameter | Place::Member | Place::Name, _) => false,
    }
}

/// The token of an `inline` that stands without a function (K4). `functions` is whether all that is declared there, and at least
/// one name, is functions.
pub fn inline_fault(specified: Specified, place: Place, functions: bool) -> Option<u32>
    ensures { result ≡ inline_fault_of specified place functions }
{
    if declares_names(place) && functions {
        None
    } else {
        specified.inline
    }
}

fn declares_names(place: Place) -> bool
    ensures { result ≡ declares_names place }
{
    match place {
        Place::File | Place::Definition | Place::Block | Place::Clause => true,
        Place::Parameter | Place::Member | Place::Name => false,
    }
}

/// The token of a `volatile` among specifiers that name the type of a row, where it may not qualify that type, or stands in a member
/// declaration (K41).
pub fn volatile_fault(table: &Table, specified: Specified, place: Place, row: u32) -> Option<u32>
    requires { row < length table.now }
    ensures { result ≡ volatile_fault_of specified place (type_at table.now row) }
{
    if has_scalars(table, row) && !is_member(place) {
        None
    } else {
        specified.volatile
    }
}

fn is_member(place: Place) -> bool
    ensures { result ≡ is_member place }
{
    match place {
        Place::Member => true,
        _ => false,
    }
}

fn has_scalars(table: &Table, row: u32) -> bool
    requires { row < length table.now }
    ensures { result ≡ has_scalars (type_at table.now row) }
{
    let mut inner = row;
    loop {
        match table.shape(inner).of {
            CType::Array(below, _) => inner = below,
            CType::Pointer(_) => return true,
            of => return is_scalar_leaf(of),
        }
    }
}

fn is_scalar_leaf(of: CType) -> bool
    ensures { result ≡ is_scalar_leaf of }
{
    match of {
        CType::Int(_) | CType::Unknown => true,
        _ => false,
    }
}
