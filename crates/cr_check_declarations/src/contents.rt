ghost use Rattle.std.specs.Prelude.{◌≡◌, ◌<◌, None, IfOk, map, length, slice_index_or};
ghost use Rattle.cr_check_types.specs.Types.{type_at};
ghost use Rattle.cr_check_types.specs.Relations.{AreRows};
ghost use Rattle.cr_check_operands.specs.Values.{seen_at};
ghost use Rattle.cr_check_declarations.specs.Before.{before_at, AreColumns, rows_of};
ghost use Rattle.cr_check_declarations.specs.Contents.{layout_by, fixed_by, given_by, given_in, enumerator_by};

use crate::before::{Columns, enumerated_of};
use crate::tree::{Tree, previous};
use cr_check_declarators::{Enumerated, Given, Structure, enumerator_by, structure_of};
use cr_check_expressions::{Member, is_typed, operand, part_at};
use cr_check_operands::Fact;
use cr_check_types::{NOTHING, Table};
use cr_syntax::{Kind, Node};
use std::alloc::{AllocError, Global};

/// What a structure has by its own members, at its content; nothing elsewhere. The error is want of memory.
pub fn structure(
    alloc: Global,
    table: &Table,
    columns: &Columns,
    members: &[Member],
    node: &Node,
) -> Result<Structure, AllocError>
    requires { AreRows table.now (rows_of members.now) }
    ensures layout { IfOk result (λ s. s.layout ≡ layout_by node.now.kind (before_at table.now columns.now) (map (type_at table.now) (rows_of members.now))) }
    ensures fixed { IfOk result (λ s. s.fixed ≡ fixed_by node.now.kind (before_at table.now columns.now) (map (type_at table.now) (rows_of members.now))) }
{
    match node.kind {
        Kind::StructContent => {
            let rows = rows_of(alloc, members)?;
            Ok(structure_of(table, columns.layouts, columns.fixed, rows.as_slice()))
        }
        _ => Ok(Structure {
            layout: NOTHING,
            fixed: false,
        }),
    }
}

fn rows_of(alloc: Global, members: &[Member]) -> Result<Vec<u32>, AllocError>
    ensures { IfOk result (λ rows. rows.items ≡ rows_of members.now) }
{
    let mut rows = Vec::new(alloc);
    for member in members {
        rows.push(member.row)?;
    }
    Ok(rows)
}

/// What an enumerator has, by the one before it in its list (C11 6.7.2.2p3); nothing elsewhere.
pub fn enumerator(
    table: &Table,
    tree: &Tree,
    columns: &Columns,
    at: u32,
    node: &Node,
) -> Option<Enumerated>
    requires { AreColumns table.now columns.now }
    ensures { result ≡ enumerator_by node.now.kind (before_at table.now columns.now) (slice_index_or tree.now.previous.now at None) node.now }
{
    match node.kind {
        Kind::Enumerator => {
            let before = enumerated_of(columns, previous(tree, at));
            let given = given_in(table, columns, part_at(node.parts.as_slice(), 0));
            Some(enumerator_by(before, given))
        }
        _ => None,
    }
}

fn given_in(table: &Table, columns: &Columns, part: Option<u32>) -> Given
    requires { AreColumns table.now columns.now }
    ensures { result ≡ given_in (before_at table.now columns.now).seen part }
{
    match part {
        None => Given::Nothing,
        Some(part) => given_by(table, operand(table, columns.facts, &[part], 0)),
    }
}

fn given_by(table: &Table, fact: Fact) -> Given
    requires { fact.row < length table.now }
    ensures { result ≡ given_by (seen_at table.now fact) }
{
    if is_typed(table, fact) {
        Given::Expression(fact.constant)
    } else {
        Given::Untyped
    }
}
