ghost use Rattle.std.specs.Prelude.{◌≡◌, ◌<◌, ◌&&◌, length, map};
ghost use Rattle.std.specs.List.{list_all};
ghost use Rattle.cr_check_types.specs.Types.{type_at};
ghost use Rattle.cr_check_types.specs.Relations.{AreRows};
ghost use Rattle.cr_check_expressions.specs.Ruled.{is_type};
ghost use Rattle.cr_check_linkage.specs.NameTypes.{name_type, types_agree, is_known, disagrees, has_library_type, is_misdeclared, AreNameRows};

use cr_check_declarators::{
    Library, Signature, agree as functions_agree, has_library_type as is_library_type,
};
use cr_check_expressions::Declared;
use cr_check_types::Table;
use cr_syntax::CType;

/// The type that a name is declared with, by rows of a table.
#[derive(Clone, Copy)]
pub struct NameRows<'a> {
    /// What it is declared as. Rows in it don't count.
    pub declared: Declared,
    /// The row of the object's type, or of what the function gives.
    pub row: u32,
    /// The rows of the types of the function's parameters.
    pub parameters: &'a [u32],
}

/// Whether two declarations of one name have compatible types (C11 6.2.7p1, 6.7.6.3p15).
pub fn types_agree(table: &Table, earlier: NameRows, now: NameRows) -> bool
    requires earlier { AreNameRows table.now earlier }
    requires now { AreNameRows table.now now }
    ensures { result ≡ types_agree (name_type table.now earlier.entry) (name_type table.now now.entry) }
{
    match (earlier.declared, now.declared) {
        (Declared::Object(..), Declared::Object(..)) => {
            table.are_compatible(earlier.row, now.row)
        }
        (Declared::Function(_, left), Declared::Function(_, right)) => functions_agree(
            table,
            signature(earlier, left),
            earlier.parameters,
            signature(now, right),
            now.parameters,
        ),
        _ => false,
    }
}

// The type of a function but for its parameters.
fn signature(name: NameRows, more: bool) -> Signature
    ensures row { result.result ≡ name.entry.row }
    ensures variadic { result.variadic ≡ more }
{
    Signature {
        result: name.row,
        variadic: more,
    }
}

// Whether all types that it speaks of are there.
#[tactic(auto, using(crate::proofs::Rows::are_types))]
fn is_known(table: &Table, name: NameRows) -> bool
    requires { AreNameRows table.now name }
    ensures { result ≡ is_known (name_type table.now name.entry) }
{
    match name.declared {
        Declared::Object(..) => is_type(table, name.row),
        Declared::Function(..) => is_type(table, name.row) && are_types(table, name.parameters),
        _ => false,
    }
}

fn is_type(table: &Table, row: u32) -> bool
    requires { row < length table.now }
    ensures { result ≡ is_type (type_at table.now row) }
{
    match table.shape(row).of {
        CType::Unknown => false,
        _ => true,
    }
}

fn are_types(table: &Table, rows: &[u32]) -> bool
    requires { AreRows table.now rows.now }
    ensures { result ≡ list_all (λ row. is_type (type_at table.now row)) rows.now }
{
    let mut all = true;
    for row in rows {
        all = all && is_type(table, *row);
    }
    all
}

/// Whether a declaration of a name disagrees with the earlier ones, by their composite type (K9). Judged only where all types are known.
pub fn disagrees(table: &Table, earlier: NameRows, now: NameRows) -> bool
    requires earlier { AreNameRows table.now earlier }
    requires now { AreNameRows table.now now }
    ensures { result ≡ disagrees (name_type table.now earlier.entry) (name_type table.now now.entry) }
{
    is_known(table, earlier) && is_known(table, now) && !types_agree(table, earlier, now)
}

/// Whether a name of the library is declared with another type than the library's (K9). Judged only where all types are known.
pub fn is_misdeclared(table: &Table, library: Option<Library>, now: NameRows) -> bool
    requires { AreNameRows table.now now }
    ensures { result ≡ is_misdeclared library (name_type table.now now.entry) }
{
    match library {
        None => false,
        Some(library) => is_known(table, now) && !has_library_type(table, library, now),
    }
}

fn has_library_type(table: &Table, library: Library, name: NameRows) -> bool
    requires { AreNameRows table.now name }
    ensures { result ≡ has_library_type library (name_type table.now name.entry) }
{
    match name.declared {
        Declared::Function(_, variadic) => {
            is_library_type(table, library, signature(name, variadic), name.parameters)
        }
        _ => false,
    }
}
