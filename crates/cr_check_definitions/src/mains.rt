// The definition of `main`.
ghost use Rattle.std.specs.Prelude.{◌≡◌, ◌<◌, length, slice_get};
ghost use Rattle.cr_syntax.specs.Words.{AreSpans};
ghost use Rattle.cr_check_types.specs.Types.{type_at};
ghost use Rattle.cr_check_types.specs.Relations.{AreRows};
ghost use Rattle.cr_check_operands.specs.Places.{found_by};
ghost use Rattle.cr_check_declarators.specs.Functions.{is_char};
ghost use Rattle.cr_check_definitions.specs.Known.{AreKnown, known_of};
ghost use Rattle.cr_check_definitions.specs.Mains.{has_main, has_mains_type, is_main, is_named_main, is_plain_char, is_unqualified, is_word, is_words, takes_nothing_or_words};

use crate::known::{Declarations, spelled};
use cr_check_declarators::{is_int, is_plain_int};
use cr_check_expressions::{Declared, part_at};
use cr_check_types::{Shape, Table};
use cr_ints::IntKind;
use cr_rows::{entry_at, row_at};
use cr_scopes_events::declared_by;
use cr_syntax::{CType, Kind, kind_at, parts_at};

/// Whether one of the external declarations defines `main` as `int main(void)`, or with parameters `int` and `char **` (C11 5.1.2.2.1).
pub(crate) fn has_main(items: &[u32], declarations: &Declarations) -> bool
    requires spans { AreSpans declarations.now.file.now declarations.now.tokens.now }
    requires known { AreKnown declarations.now }
    ensures { result ≡ has_main (known_of declarations.now) items.now }
{
    items.iter().any(|item| is_main(declarations, *item))
}

fn is_main(declarations: &Declarations, item: u32) -> bool
    requires spans { AreSpans declarations.now.file.now declarations.now.tokens.now }
    requires known { AreKnown declarations.now }
    ensures { result ≡ is_main (known_of declarations.now) item }
{
    match kind_at(declarations.nodes, item as usize) {
        Some(Kind::FunctionDefinition) => {
            match part_at(parts_at(declarations.nodes, item as usize), 1) {
                Some(node) => {
                    is_named_main(declarations, node) && has_mains_type(declarations, node)
                }
                None => false,
            }
        }
        _ => false,
    }
}

fn is_named_main(declarations: &Declarations, node: u32) -> bool
    requires { AreSpans declarations.now.file.now declarations.now.tokens.now }
    ensures { result ≡ is_named_main (known_of declarations.now) node }
{
    match declared_by(declarations.nodes, node).name {
        Some(token) => spelled(declarations, token) == b"main".as_slice(),
        None => false,
    }
}

fn has_mains_type(declarations: &Declarations, node: u32) -> bool
    requires { AreKnown declarations.now }
    ensures { result ≡ has_mains_type ((known_of declarations.now).stands node) }
{
    let table = declarations.table;
    match entry_at(declarations.declared, node as usize, Declared::Unclear) {
        Declared::Function(row, more) => {
            is_plain_int(table, row)
                && !more
                && takes_nothing_or_words(table, row_at(declarations.parameters, node as usize))
        }
        _ => false,
    }
}

fn takes_nothing_or_words(table: &Table, rows: &[u32]) -> bool
    requires { AreRows table.now rows.now }
    ensures { result ≡ takes_nothing_or_words (length rows.now) (λ k. found_by (type_at table.now) (slice_get rows.now k)) }
{
    if rows.len() == 2 {
        is_int(table, rows[0]) && is_words(table, rows[1])
    } else {
        rows.len() == 0
    }
}

// `char **`, whatever its own qualifiers.
fn is_words(table: &Table, row: u32) -> bool
    requires { row < length table.now }
    ensures { result ≡ is_words (type_at table.now row) }
{
    match table.shape(row).of {
        CType::Pointer(below) => is_word(table, below),
        _ => false,
    }
}

fn is_word(table: &Table, row: u32) -> bool
    requires { row < length table.now }
    ensures { result ≡ is_word (type_at table.now row) }
{
    let shape = table.shape(row);
    match shape.of {
        CType::Pointer(below) => is_unqualified(shape) && is_plain_char(table, below),
        _ => false,
    }
}

fn is_plain_char(table: &Table, row: u32) -> bool
    requires { row < length table.now }
    ensures { result ≡ is_plain_char (type_at table.now row) }
{
    let shape = table.shape(row);
    match shape.of {
        CType::Int(kind) => is_char(kind) && is_unqualified(shape),
        _ => false,
    }
}

fn is_char(kind: IntKind) -> bool
    ensures { result ≡ is_char kind }
{
    match kind {
        IntKind::Char => true,
        _ => false,
    }
}

fn is_unqualified(shape: Shape) -> bool
    ensures { result ≡ is_unqualified shape.constant shape.volatile }
{
    !shape.constant && !shape.volatile
}
