ghost use Rattle.std.specs.Prelude.{◌≡◌, ◌<◌, ◌&&◌, ◌↔◌, IsTrue, length, map, not};
ghost use Rattle.cr_check_types.specs.Types.{type_at};
ghost use Rattle.cr_check_types.specs.Relations.{AreRows, are_compatible, bare, same, AgreeInParameters};
ghost use Rattle.cr_check_declarators.specs.Functions.{functions_agree, parameters_agree, prototype_at, library_of, takes_one, is_format, is_constant_char, is_int, is_plain_int, is_plain_void, library_type};

use cr_check_types::{Shape, Table};
use cr_ints::IntKind;
use cr_syntax::CType;

/// The type of a function but for its parameters.
#[derive(Clone, Copy)]
pub struct Signature {
    /// The row of its result.
    pub result: u32,
    /// Whether `...` stands behind its parameters.
    pub variadic: bool,
}

/// Whether the types of two functions are compatible (C11 6.7.6.3p15, K9). The rows of parameters are those of their adjusted types.
pub fn agree(
    table: &Table,
    left: Signature,
    left_parameters: &[u32],
    right: Signature,
    right_parameters: &[u32],
) -> bool
    requires left { left.result < length table.now }
    requires left_rows { AreRows table.now left_parameters.now }
    requires right { right.result < length table.now }
    requires right_rows { AreRows table.now right_parameters.now }
    ensures { result ≡ functions_agree (prototype_at table.now left left_parameters.now) (prototype_at table.now right right_parameters.now) }
{
    left.variadic == right.variadic
        && table.are_compatible(left.result, right.result)
        && parameters_agree(table, left_parameters, right_parameters)
}

fn parameters_agree(table: &Table, left: &[u32], right: &[u32]) -> bool
    requires left { AreRows table.now left.now }
    requires right { AreRows table.now right.now }
    ensures { result ≡ parameters_agree (map (type_at table.now) left.now) (map (type_at table.now) right.now) }
{
    table.agree_in_parameters(left, right)
}

/// A function of the library that the subset has.
#[derive(Clone, Copy)]
pub enum Library {
    Printf,
    Putchar,
    Abort,
    Exit,
}

/// The function of the library that a linked name is.
pub fn library_of(spelling: &[u8]) -> Option<Library>
    ensures { result ≡ library_of spelling.now }
{
    if spelling == b"printf".as_slice() {
        Some(Library::Printf)
    } else if spelling == b"putchar".as_slice() {
        Some(Library::Putchar)
    } else if spelling == b"abort".as_slice() {
        Some(Library::Abort)
    } else if spelling == b"exit".as_slice() {
        Some(Library::Exit)
    } else {
        None
    }
}

/// Whether a function of the library is declared with its type (K9).
pub fn has_library_type(
    table: &Table,
    library: Library,
    signature: Signature,
    parameters: &[u32],
) -> bool
    requires result { signature.result < length table.now }
    requires rows { AreRows table.now parameters.now }
    ensures { result ≡ library_type library (prototype_at table.now signature parameters.now) }
{
    match library {
        Library::Printf => {
            is_plain_int(table, signature.result)
                && signature.variadic
                && takes_one(table, parameters, true)
        }
        Library::Putchar => {
            is_plain_int(table, signature.result)
                && !signature.variadic
                && takes_one(table, parameters, false)
        }
        Library::Abort => {
            is_plain_void(table, signature.result) && !signature.variadic && parameters.is_empty()
        }
        Library::Exit => {
            is_plain_void(table, signature.result)
                && !signature.variadic
                && takes_one(table, parameters, false)
        }
    }
}

// Whether there is one parameter, and it is a format or else an int.
fn takes_one(table: &Table, parameters: &[u32], format: bool) -> bool
    requires { AreRows table.now parameters.now }
    ensures { result ≡ takes_one format (map (type_at table.now) parameters.now) }
{
    if parameters.len() != 1 {
        return false;
    }
    let row = parameters[0];
    if format {
        is_format(table, row)
    } else {
        is_int(table, row)
    }
}

fn is_format(table: &Table, row: u32) -> bool
    requires { row < length table.now }
    ensures { result ≡ is_format (type_at table.now row) }
{
    match table.shape(row).of {
        CType::Pointer(to) => is_constant_char(table, to),
        _ => false,
    }
}

fn is_constant_char(table: &Table, row: u32) -> bool
    requires { row < length table.now }
    ensures { result ≡ is_constant_char (type_at table.now row) }
{
    let shape = table.shape(row);
    match shape.of {
        CType::Int(IntKind::Char) => shape.constant && !shape.volatile,
        _ => false,
    }
}

/// Whether a row's type is `int`, whatever its qualifiers.
pub fn is_int(table: &Table, row: u32) -> bool
    requires { row < length table.now }
    ensures { result ≡ is_int (type_at table.now row) }
{
    match table.shape(row).of {
        CType::Int(IntKind::Int) => true,
        _ => false,
    }
}

/// Whether a row's type is `int` without qualifiers.
pub fn is_plain_int(table: &Table, row: u32) -> bool
    requires { row < length table.now }
    ensures { result ≡ is_plain_int (type_at table.now row) }
{
    let shape = table.shape(row);
    match shape.of {
        CType::Int(IntKind::Int) => is_unqualified(shape),
        _ => false,
    }
}

fn is_plain_void(table: &Table, row: u32) -> bool
    requires { row < length table.now }
    ensures { result ≡ is_plain_void (type_at table.now row) }
{
    let shape = table.shape(row);
    match shape.of {
        CType::Void => is_unqualified(shape),
        _ => false,
    }
}

fn is_unqualified(shape: Shape) -> bool
    ensures { result ≡ (not shape.constant && not shape.volatile) }
{
    !shape.constant && !shape.volatile
}
