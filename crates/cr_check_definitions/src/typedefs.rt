// Typedef names that are declared again.
ghost use Rattle.std.specs.Prelude.{◌≡◌, ◌<◌, ℕ, None, Some, List, IfOk, IsTrue, ◌↔◌, length, slice_index_or};
ghost use Rattle.cr_check_types.specs.Types.{Qualified, type_at};
ghost use Rattle.cr_check_expressions.specs.Known.{meaning_by};
ghost use Rattle.cr_check_expressions.specs.Ruled.{is_type};
ghost use Rattle.cr_check_definitions.specs.Known.{AreKnown, known_of};
ghost use Rattle.cr_check_definitions.specs.Typedefs.{AreFirsts, IsFirstTwice, IsRowOf, IsTwice, differ, entry_of, first_given, is_type_name, is_typedef, typedef_at, typedef_of};

use crate::known::Declarations;
use cr_check_declarators::BARE;
use cr_check_expressions::Declared;
use cr_check_types::Table;
use cr_rows::entry_at;
use cr_scopes::Names;
use cr_syntax::{CType, number_of};
use std::alloc::{AllocError, Global};

/// The first token whose name is a typedef with another type than that of its first declaration (C11 6.7p3). Where either has no type
/// nothing is said. The error is want of memory.
pub fn repeated(
    alloc: Global,
    names: &Names,
    declarations: &Declarations,
) -> Result<Option<u32>, AllocError>
    requires { AreKnown declarations.now }
    ensures { IfOk result (λ token. IsFirstTwice (known_of declarations.now) names.now token) }
{
    let firsts = firsts(alloc, names, declarations)?;
    for at in 0..declarations.declarers.len() {
        let token = number_of(at)?;
        if is_twice(names, declarations, &firsts, token) {
            return Ok(Some(token));
        }
    }
    Ok(None)
}

// For each entity the first row that its declarations as a typedef name give it.
#[tactic(auto, using(crate::proofs::Twice::firsts_more))]
fn firsts(
    alloc: Global,
    names: &Names,
    declarations: &Declarations,
) -> Result<Vec<Option<u32>>, AllocError>
    requires { AreKnown declarations.now }
    ensures count { IfOk result (λ firsts. length firsts.items ≡ length names.now.entities) }
    ensures each { IfOk result (λ firsts. AreFirsts declarations.now.table.now (known_of declarations.now) names.now (length names.now.entities) firsts.items) }
{
    let mut firsts = Vec::new(alloc);
    for at in 0..names.entities.len() {
        let declared = names.entities.as_slice()[at].declared.as_slice();
        firsts.push(first_given(declarations, declared))?;
    }
    Ok(firsts)
}

#[tactic(auto, using(crate::proofs::Twice::given_here, crate::proofs::Twice::given_later))]
fn first_given(declarations: &Declarations, declared: &[u32]) -> Option<u32>
    requires { AreKnown declarations.now }
    ensures { IsRowOf declarations.now.table.now result (first_given (typedef_of (known_of declarations.now)) declared.now) }
{
    for token in declared {
        if let Some(row) = typedef_of(declarations, *token) {
            return Some(row);
        }
    }
    None
}

// The row of the type that a token gives its typedef name.
fn typedef_of(declarations: &Declarations, token: u32) -> Option<u32>
    requires { AreKnown declarations.now }
    ensures { IsRowOf declarations.now.table.now result (typedef_of (known_of declarations.now) token) }
{
    match entry_at(declarations.declarers, token as usize, None) {
        Some(node) => typedef_at(declarations, node),
        None => None,
    }
}

fn typedef_at(declarations: &Declarations, node: u32) -> Option<u32>
    requires { AreKnown declarations.now }
    ensures { IsRowOf declarations.now.table.now result (typedef_at (known_of declarations.now) node) }
{
    let row = entry_at(declarations.named, node as usize, 0);
    if is_typedef(declarations, node) && is_type(declarations.table, row) {
        Some(row)
    } else {
        None
    }
}

fn is_typedef(declarations: &Declarations, node: u32) -> bool
    ensures { result ≡ is_typedef (known_of declarations.now) node }
{
    is_type_name(entry_at(declarations.declared, node as usize, Declared::Unclear))
        && entry_at(declarations.declarators, node as usize, BARE)
            .function
            .is_none()
}

fn is_type_name(declared: Declared) -> bool
    ensures { (look : ℕ → Qualified) (rows : List ℕ) → result ≡ is_type_name (meaning_by look rows declared) }
{
    match declared {
        Declared::TypeName => true,
        _ => false,
    }
}

fn is_type(table: &Table, row: u32) -> bool
    requires { row < length table.now }
    ensures { result ≡ is_type (type_at table.now row) }
{
    match table.shape(row).of {
        CType::Unknown => false,
        _ => true,
    }
}

fn is_twice(names: &Names, declarations: &Declarations, firsts: &[Option<u32>], token: u32) -> bool
    requires known { AreKnown declarations.now }
    requires count { length firsts.now ≡ length names.now.entities }
    requires firsts { AreFirsts declarations.now.table.now (known_of declarations.now) names.now (length names.now.entities) firsts.now }
    ensures { IsTrue result ↔ IsTwice (known_of declarations.now) names.now token }
{
    declarations.table.is_canonical();
    differ(
        typedef_of(declarations, token),
        first_of(names, firsts, token),
    )
}

fn differ(row: Option<u32>, first: Option<u32>) -> bool
    ensures { result ≡ differ row first }
{
    match row {
        Some(row) => differs(row, first),
        None => false,
    }
}

fn differs(row: u32, first: Option<u32>) -> bool
    ensures { result ≡ differ (Some row) first }
{
    match first {
        Some(first) => row != first,
        None => false,
    }
}

// The first row that the declarations of a token's entity give it.
fn first_of(names: &Names, firsts: &[Option<u32>], token: u32) -> Option<u32>
    ensures { result ≡ entry_of firsts.now (slice_index_or names.now.of_token token None) }
{
    match entry_at(names.of_token.as_slice(), token as usize, None) {
        Some(entity) => entry_at(firsts, entity as usize, None),
        None => None,
    }
}
