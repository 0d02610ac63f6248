ghost use Rattle.std.specs.Prelude.{◌≡◌, ◌<◌, ◌||◌, IfOk, OnOk, length};
ghost use Rattle.cr_check_types.specs.Types.{Qualified, type_at, type_by, type_of, plain, pointer, array, IsRow, Grows, unknown};
ghost use Rattle.cr_check_types.specs.Relations.{is_complete_at};
ghost use Rattle.cr_check_types.specs.Layouts.{layout_of};
ghost use Rattle.cr_check_declarators.specs.Declarators.{hole, is_hole_type, is_unknown, is_refused, declared_type, are_whole, whole_elements, whole_object, is_object_of, declares_type, cells_fault_of, may_return, is_declared, function_fault_of, may_be_open, open_fault_of};

use crate::declarator::{Declarator, overfull};
use crate::words::Class;
use cr_check_enclosing::Place;
use cr_check_types::{Layout, Shape, Table};
use cr_syntax::{CType, Node};
use std::alloc::AllocError;

/// A row of the derivations of a name: none.
pub fn hole(table: &mut Table) -> Result<u32, AllocError>
    ensures made { IfOk result (λ r. IsRow table.new r hole) }
    ensures grows { OnOk result (Grows table.old table.new) }
{
    table.add(Shape::plain(CType::Void))
}

/// A row of the derivations of a pointer declarator, by that of its declarator (C11 6.7.6.1).
pub fn pointed(
    table: &mut Table,
    row: u32,
    constant: bool,
    volatile: bool,
) -> Result<u32, AllocError>
    requires { row < length table.old }
    ensures made { IfOk result (λ r. IsRow table.new r (pointer constant volatile (type_at table.old row))) }
    ensures grows { OnOk result (Grows table.old table.new) }
{
    table.add(Shape {
        of: CType::Pointer(row),
        constant,
        volatile,
    })
}

/// A row of the derivations of an array declarator, by that of its declarator (6.7.6.2). A size of 0 is an unknown one.
pub fn arrayed(table: &mut Table, row: u32, size: u64) -> Result<u32, AllocError>
    requires { row < length table.old }
    ensures made { IfOk result (λ r. IsRow table.new r (array size (type_at table.old row))) }
    ensures grows { OnOk result (Grows table.old table.new) }
{
    table.add(Shape::plain(CType::Array(row, size)))
}

/// Whether nothing is derived in a declarator, by the row of its derivations.
pub fn is_hole(table: &Table, row: u32) -> bool
    requires { row < length table.now }
    ensures { result ≡ is_hole_type (type_at table.now row) }
{
    match table.shape(row).of {
        CType::Pointer(_) | CType::Array(..) => false,
        _ => true,
    }
}

fn is_unknown(table: &Table, row: u32) -> bool
    requires { row < length table.now }
    ensures { result ≡ is_unknown (type_at table.now row) }
{
    match table.shape(row).of {
        CType::Unknown => true,
        _ => false,
    }
}

/// A row of the type that a whole declarator declares its name with, or the result of its function, by the type of its specifiers
/// (6.7.6). It is that of no type where that has none, where a size is wrong, and where a function is derived elsewhere than next to
/// the name.
pub fn declare(
    table: &mut Table,
    declarator: Declarator,
    derivations: u32,
    base: u32,
) -> Result<u32, AllocError>
    requires derivations { derivations < length table.old }
    requires base { base < length table.old }
    ensures made { IfOk result (λ r. IsRow table.new r (declared_type declarator (type_at table.old derivations) (type_at table.old base))) }
    ensures grows { OnOk result (Grows table.old table.new) }
{
    if is_refused(declarator) || is_unknown(table, base) {
        table.add(Shape::plain(CType::Unknown))
    } else {
        table.turned(derivations, base)
    }
}

fn is_refused(declarator: Declarator) -> bool
    ensures { result ≡ is_refused declarator }
{
    declarator.misplaced || declarator.untyped || declarator.wrong.is_some()
}

/// Whether each array of a declarator has elements of a complete type at a node (6.7.6.2p1, K6). Where the type of the specifiers isn't
/// known it is not judged.
pub fn has_whole_elements(
    table: &Table,
    nodes: &[Node],
    at: u32,
    derivations: u32,
    base: u32,
) -> bool
    requires derivations { derivations < length table.now }
    requires base { base < length table.now }
    ensures { result ≡ whole_elements (is_complete_at nodes.now at) (type_at table.now derivations) (type_at table.now base) }
{
    is_unknown(table, base) || are_whole(table, table.is_complete(nodes, at, base), derivations)
}

fn are_whole(table: &Table, complete: bool, derivations: u32) -> bool
    requires { derivations < length table.now }
    ensures { result ≡ are_whole complete (type_at table.now derivations) }
{
    let mut whole = complete;
    let mut rest = derivations;
    loop {
        match table.shape(rest).of {
            CType::Pointer(below) => {
                whole = true;
                rest = below;
            }
            CType::Array(below, size) => {
                if !whole {
                    return false;
                }
                whole = size != 0;
                rest = below;
            }
            _ => return true,
        }
    }
}

/// Whether an object, a member or a defined parameter may have the type of a row at a node (K6): a complete one. An array of unknown
/// size is not judged here, and no type isn't either.
pub fn is_whole_object(table: &Table, nodes: &[Node], at: u32, row: u32) -> bool
    requires { row < length table.now }
    ensures { result ≡ whole_object (is_complete_at nodes.now at) (type_at table.now row) }
{
    match table.shape(row).of {
        CType::Unknown => true,
        CType::Array(_, 0) => true,
        _ => table.is_complete(nodes, at, row),
    }
}

/// Whether a declaration declares an object or a member, so that its type has to be complete (K6). `function` is whether it declares a
/// function. Parameters are judged in the definition of their function.
pub fn is_object(place: Place, class: Option<Class>, function: bool) -> bool
    ensures { result ≡ is_object_of place class function }
{
    match place {
        Place::Member => !function,
        Place::File | Place::Block | Place::Clause => !function && !declares_type(class),
        Place::Definition | Place::Parameter | Place::Name => false,
    }
}

fn declares_type(class: Option<Class>) -> bool
    ensures { result ≡ declares_type class }
{
    match class {
        Some(Class::Typedef) => true,
        _ => false,
    }
}

/// The first bracket of an array with more cells than an array may have (K7), by the type of the specifiers. `layouts` has the layout
/// of each structure at its node.
pub fn cells_fault(
    table: &Table,
    layouts: &[Layout],
    declarator: Declarator,
    base: u32,
) -> Option<u32>
    requires { base < length table.now }
    ensures { result ≡ cells_fault_of declarator (layout_of layouts.now (type_at table.now base)) }
{
    let cells = table.layout(layouts, base).cells;
    overfull(declarator.overfull, declarator.arrays, cells)
}

/// Whether a function type stands where none may (K8): elsewhere than next to a declared name, with a result, of the row's type, that
/// is neither void nor a scalar, or with an empty list outside a definition.
pub fn function_fault(
    table: &Table,
    declarator: Declarator,
    place: Place,
    typedef: bool,
    row: u32,
) -> bool
    requires { row < length table.now }
    ensures { result ≡ function_fault_of declarator place typedef (type_at table.now row) }
{
    if declarator.function.is_some() {
        declarator.misplaced
            || !is_declared(place, typedef, declarator.empty)
            || !may_return(table, row)
    } else {
        declarator.misplaced
    }
}

fn is_declared(place: Place, typedef: bool, empty: bool) -> bool
    ensures { result ≡ is_declared place typedef empty }
{
    match place {
        Place::Definition => true,
        Place::File | Place::Block | Place::Clause => !typedef && !empty,
        Place::Parameter | Place::Member | Place::Name => false,
    }
}

fn may_return(table: &Table, row: u32) -> bool
    requires { row < length table.now }
    ensures { result ≡ may_return (type_at table.now row) }
{
    match table.shape(row).of {
        CType::Void | CType::Int(_) | CType::Pointer(_) | CType::Unknown => true,
        CType::Array(..) | CType::Struct(_) | CType::Function(_) => false,
    }
}

/// The first bracket without a size, where none may stand (K14): it stands in a parameter, in a declaration with `extern`, or with an
/// initialiser.
pub fn open_fault(
    declarator: Declarator,
    place: Place,
    class: Option<Class>,
    initialised: bool,
) -> Option<u32>
    ensures { result ≡ open_fault_of declarator place class initialised }
{
    if initialised || may_be_open(place, class) {
        None
    } else {
        declarator.sizeless
    }
}

fn may_be_open(place: Place, class: Option<Class>) -> bool
    ensures { result ≡ may_be_open place class }
{
    match (place, class) {
        (Place::Parameter, _) => true,
        (_, Some(Class::Extern)) => true,
        _ => false,
    }
}
