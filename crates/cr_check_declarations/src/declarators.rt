ghost use Rattle.std.specs.Prelude.{◌≡◌, ◌<◌, ◌≤◌, ◌-◌, ◌+◌, ◌^◌, ℕ, IfOk, OnOk, codes, length, slice_get};
ghost use Rattle.cr_syntax.specs.Words.{AreSpans};
ghost use Rattle.cr_check_types.specs.Types.{type_at, IsRow, Grows};
ghost use Rattle.cr_check_declarators.specs.Declarators.{is_hole_type};
ghost use Rattle.cr_check_expressions.specs.Known.{spelling_of};
ghost use Rattle.cr_check_declarations.specs.Before.{before_at, AreColumns};
ghost use Rattle.cr_check_declarations.specs.Declarators.{first_spelled, star_ends, star_has, size_in, count_of, bracket_before, inner_derived, pointed_by, resulting, sized_by, derived_by, star_of, brackets_of, declarator_by};

use crate::before::{Columns, declarator_of, derivations_at};
use crate::tree::{Tree, first_of, spelling};
use cr_check_declarators::{
    BARE, Declarator, Size, array, arrayed, function, hole, is_hole, pointed, pointer, size_of,
};
use cr_check_expressions::{is_typed, operand, part_at};
use cr_check_types::Table;
use cr_syntax::{Kind, Node};
use std::alloc::AllocError;

// The first token that is spelled so, from one to before another.
fn first_spelled(tree: &Tree, word: &[u8], from: usize, end: usize) -> Option<u32>
    requires spans { AreSpans tree.now.file.now tree.now.tokens.now }
    requires end { end ≤ 2 ^ 32 }
    ensures { result ≡ first_spelled (spelling_of tree.now.file.now tree.now.tokens.now) word.now from (end - from) }
{
    let mut found = None;
    for token in from..end {
        if found.is_none() && spelling(tree, token) == word {
            found = Some(token as u32);
        }
    }
    found
}

// The first qualifier behind a star that is spelled so.
fn star_has(tree: &Tree, word: &[u8], node: &Node) -> Option<u32>
    requires { AreSpans tree.now.file.now tree.now.tokens.now }
    ensures { result ≡ star_has (spelling_of tree.now.file.now tree.now.tokens.now) word.now tree.now.nodes.now node.now }
{
    let end = match part_at(node.parts.as_slice(), 0) {
        Some(part) => first_of(tree.nodes, Some(part)) as usize,
        None => node.last as usize + 1,
    };
    first_spelled(tree, word, node.first as usize + 1, end)
}

// What stands between brackets.
fn size_in(table: &Table, columns: &Columns, part: Option<u32>) -> Size
    requires { AreColumns table.now columns.now }
    ensures { result ≡ size_in (before_at table.now columns.now).seen part }
{
    match part {
        Some(part) => {
            let fact = operand(table, columns.facts, &[part], 0);
            size_of(is_typed(table, fact), fact.constant)
        }
        None => Size::Open,
    }
}

// An unknown size is 0, and one that is wrong counts as 1.
fn count_of(size: Size) -> u64
    ensures { result ≡ count_of size }
{
    match size {
        Size::Known(count) => count,
        Size::Open => 0,
        Size::Untyped => 1,
        Size::Wrong => 1,
    }
}

// The left bracket, by the size between the brackets.
fn bracket_before(tree: &Tree, node: &Node, part: Option<u32>) -> u32
    ensures { result ≡ bracket_before tree.now.nodes.now node.now part }
{
    match part {
        Some(part) => first_of(tree.nodes, Some(part)).saturating_sub(1),
        None => node.last.saturating_sub(1),
    }
}

// The row of what the inner declarator derives, or of nothing derived where there is none.
fn inner_derived(table: &mut Table, columns: &Columns, part: Option<u32>) -> Result<u32, AllocError>
    requires { AreColumns table.old columns.now }
    ensures made { IfOk result (λ r. IsRow table.new r (inner_derived (before_at table.old columns.now) part)) }
    ensures grows { OnOk result (Grows table.old table.new) }
{
    match part {
        Some(part) => Ok(derivations_at(table, columns, part)),
        None => hole(table),
    }
}

/// A row of what a declarator derives, from the name outwards; of what is no declarator that of no type. The error is want of memory.
pub fn derivations(
    table: &mut Table,
    tree: &Tree,
    columns: &Columns,
    node: &Node,
) -> Result<u32, AllocError>
    requires spans { AreSpans tree.now.file.now tree.now.tokens.now }
    requires columns { AreColumns table.old columns.now }
    ensures made { IfOk result (λ r. IsRow table.new r (derived_by node.now.kind (spelling_of tree.now.file.now tree.now.tokens.now) tree.now.nodes.now (before_at table.old columns.now) node.now)) }
    ensures grows { OnOk result (Grows table.old table.new) }
{
    let parts = node.parts.as_slice();
    match node.kind {
        Kind::NameDeclarator => hole(table),
        Kind::GroupDeclarator | Kind::AbstractGroup => {
            inner_derived(table, columns, part_at(parts, 0))
        }
        Kind::FunctionDeclarator => {
            let inner = inner_derived(table, columns, part_at(parts, 0))?;
            resulting(table, inner)
        }
        Kind::PointerDeclarator | Kind::AbstractPointer => pointed_by(table, tree, columns, node),
        Kind::ArrayDeclarator | Kind::AbstractArrayOf => {
            let size = size_in(table, columns, part_at(parts, 1));
            let inner = inner_derived(table, columns, part_at(parts, 0))?;
            arrayed(table, inner, count_of(size))
        }
        Kind::AbstractArray => {
            let size = size_in(table, columns, part_at(parts, 0));
            let inner = hole(table)?;
            arrayed(table, inner, count_of(size))
        }
        _ => Ok(0),
    }
}

// What is derived behind a function declarator.
fn resulting(table: &mut Table, inner: u32) -> Result<u32, AllocError>
    requires { inner < length table.old }
    ensures made { IfOk result (λ r. IsRow table.new r (resulting (type_at table.old inner))) }
    ensures grows { OnOk result (Grows table.old table.new) }
{
    if is_hole(table, inner) {
        Ok(inner)
    } else {
        pointed(table, inner, false, false)
    }
}

fn pointed_by(
    table: &mut Table,
    tree: &Tree,
    columns: &Columns,
    node: &Node,
) -> Result<u32, AllocError>
    requires spans { AreSpans tree.now.file.now tree.now.tokens.now }
    requires columns { AreColumns table.old columns.now }
    ensures made { IfOk result (λ r. IsRow table.new r (pointed_by (spelling_of tree.now.file.now tree.now.tokens.now) tree.now.nodes.now node.now (inner_derived (before_at table.old columns.now) (slice_get node.now.parts 0)))) }
    ensures grows { OnOk result (Grows table.old table.new) }
{
    let constant = star_has(tree, b"const", node).is_some();
    let volatile = star_has(tree, b"volatile", node).is_some();
    let inner = inner_derived(table, columns, part_at(node.parts.as_slice(), 0))?;
    pointed(table, inner, constant, volatile)
}

/// What a declarator has; of what is no declarator that of a name alone.
pub fn declarator(table: &Table, tree: &Tree, columns: &Columns, at: u32, node: &Node) -> Declarator
    requires spans { AreSpans tree.now.file.now tree.now.tokens.now }
    requires columns { AreColumns table.now columns.now }
    ensures { result ≡ declarator_by node.now.kind (spelling_of tree.now.file.now tree.now.tokens.now) tree.now.nodes.now (before_at table.now columns.now) at node.now }
{
    let parts = node.parts.as_slice();
    match node.kind {
        Kind::GroupDeclarator | Kind::AbstractGroup | Kind::InitDeclarator => {
            declarator_of(columns, part_at(parts, 0))
        }
        Kind::PointerDeclarator | Kind::AbstractPointer => {
            let volatile = star_has(tree, b"volatile", node);
            pointer(declarator_of(columns, part_at(parts, 0)), volatile)
        }
        Kind::ArrayDeclarator | Kind::AbstractArrayOf => {
            let inner = declarator_of(columns, part_at(parts, 0));
            brackets_of(table, tree, columns, node, part_at(parts, 1), inner)
        }
        Kind::AbstractArray => brackets_of(table, tree, columns, node, part_at(parts, 0), BARE),
        Kind::FunctionDeclarator => {
            let inner = part_at(parts, 0);
            let bare = is_bare(table, columns, inner);
            let empty = part_at(parts, 1).is_none();
            function(declarator_of(columns, inner), bare, at, empty)
        }
        _ => BARE,
    }
}

fn brackets_of(
    table: &Table,
    tree: &Tree,
    columns: &Columns,
    node: &Node,
    part: Option<u32>,
    inner: Declarator,
) -> Declarator
    requires { AreColumns table.now columns.now }
    ensures { result ≡ brackets_of tree.now.nodes.now (before_at table.now columns.now) node.now part inner }
{
    let size = size_in(table, columns, part);
    array(inner, bracket_before(tree, node, part), size)
}

// Whether nothing is derived in the inner declarator.
fn is_bare(table: &Table, columns: &Columns, part: Option<u32>) -> bool
    requires { AreColumns table.now columns.now }
    ensures { result ≡ is_hole_type (inner_derived (before_at table.now columns.now) part) }
{
    match part {
        Some(part) => is_hole(table, derivations_at(table, columns, part)),
        None => true,
    }
}
