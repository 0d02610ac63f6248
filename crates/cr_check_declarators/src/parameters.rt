ghost use Rattle.std.specs.Prelude.{◌≡◌, ◌<◌, IfOk, OnOk, length};
ghost use Rattle.cr_check_types.specs.Types.{type_at, IsRow, Grows};
ghost use Rattle.cr_check_declarators.specs.Functions.{adjusted_type};

use cr_check_types::{Shape, Table};
use cr_syntax::CType;
use std::alloc::AllocError;

/// A row of the type of a parameter that is declared with a row's type (C11 6.7.6.3p7): an array becomes a pointer to its elements.
pub fn adjusted(table: &mut Table, row: u32) -> Result<u32, AllocError>
    requires { row < length table.old }
    ensures made { IfOk result (λ r. IsRow table.new r (adjusted_type (type_at table.old row))) }
    ensures grows { OnOk result (Grows table.old table.new) }
{
    match table.shape(row).of {
        CType::Array(of, _) => table.add(Shape::plain(CType::Pointer(of))),
        _ => Ok(row),
    }
}
