ghost use Rattle.std.specs.Prelude.{◌≡◌, ◌<◌, ◌≤◌, length, if◌then◌else◌};
ghost use Rattle.cr_check_types.specs.Types.{type_at};
ghost use Rattle.cr_check_operands.specs.Rules.{is_zero};
ghost use Rattle.cr_check_initialisers.specs.Anchors.{is_value, is_address, reached, address_of, member_of, subscripted, is_array, is_pointer, cast_to};

use cr_check_constants::Constant;
use cr_check_types::Table;
use cr_syntax::CType;

/// What of an expression's address is constant (C11 6.6p9).
#[derive(Clone, Copy)]
pub enum Anchor {
    /// Nothing is.
    Moving,
    /// It is a place in an object of static duration, or in a string literal, at an address that is constant.
    Place,
    /// It is an address constant.
    Address,
}

/// An object's name, or a string literal, which is of static duration.
pub fn anchor_of_object(is_static: bool) -> Anchor
    ensures { result ≡ (if is_static then Anchor.Place else Anchor.Moving) }
{
    if is_static {
        Anchor::Place
    } else {
        Anchor::Moving
    }
}

/// `&` of an operand (6.5.3.2).
pub fn anchor_of_address(operand: Anchor) -> Anchor
    ensures { result ≡ address_of operand }
{
    match operand {
        Anchor::Place => Anchor::Address,
        Anchor::Address => Anchor::Moving,
        Anchor::Moving => Anchor::Moving,
    }
}

/// `*` or `->` of an operand, by whether its value is an address constant (6.5.3.2, 6.5.2.3).
pub fn anchor_of_reached(address: bool) -> Anchor
    ensures { result ≡ reached address }
{
    if address {
        Anchor::Place
    } else {
        Anchor::Moving
    }
}

/// `.` of an operand (6.5.2.3).
pub fn anchor_of_member(operand: Anchor) -> Anchor
    ensures { result ≡ member_of operand }
{
    match operand {
        Anchor::Place => Anchor::Place,
        Anchor::Address => Anchor::Moving,
        Anchor::Moving => Anchor::Moving,
    }
}

/// A subscript (6.5.2.1), by whether the value of each operand is an address constant, and what it is as an integer constant.
pub fn anchor_of_subscript(left: bool, x: Constant, right: bool, y: Constant) -> Anchor
    ensures { result ≡ subscripted left x right y }
{
    anchor_of_reached((left && is_value(y)) || (right && is_value(x)))
}

/// A cast to the type of a row (6.5.4), by whether the operand's value is an address constant, and what it is as an integer constant.
pub fn anchor_of_cast(table: &Table, row: u32, address: bool, constant: Constant) -> Anchor
    requires { row < length table.now }
    ensures { result ≡ cast_to (type_at table.now row) address constant }
{
    if is_pointer(table, row) && (address || is_zero(constant)) {
        Anchor::Address
    } else {
        Anchor::Moving
    }
}

fn is_pointer(table: &Table, row: u32) -> bool
    requires { row < length table.now }
    ensures { result ≡ is_pointer (type_at table.now row) }
{
    match table.shape(row).of {
        CType::Pointer(_) => true,
        _ => false,
    }
}

/// Whether the value of an expression of a row's type is an address constant.
pub fn is_address(table: &Table, row: u32, anchor: Anchor) -> bool
    requires { row < length table.now }
    ensures { result ≡ is_address anchor (type_at table.now row) }
{
    match anchor {
        Anchor::Address => true,
        Anchor::Place => is_array(table, row),
        Anchor::Moving => false,
    }
}

fn is_array(table: &Table, row: u32) -> bool
    requires { row < length table.now }
    ensures { result ≡ is_array (type_at table.now row) }
{
    match table.shape(row).of {
        CType::Array(..) => true,
        _ => false,
    }
}

pub(crate) fn is_value(constant: Constant) -> bool
    ensures { result ≡ is_value constant }
{
    match constant {
        Constant::Value(_) => true,
        Constant::Undefined => false,
        Constant::NotConstant => false,
    }
}

fn is_zero(constant: Constant) -> bool
    ensures { result ≡ is_zero constant }
{
    match constant {
        Constant::Value(value) => value == 0,
        Constant::Undefined => false,
        Constant::NotConstant => false,
    }
}
