ghost use Rattle.std.specs.Prelude.{◌≡◌, ◌<◌, ◌++◌, ◌∷◌, [], IfOk, OnOk, length, map, drop, slice_get, slice_index_or};
ghost use Rattle.std.specs.List.{flat_map};
ghost use Rattle.std.specs.Prelude.{List};
ghost use Rattle.cr_check_types.specs.declared.shape.Shape as shape;
ghost use Rattle.cr_check_types.specs.Types.{type_at, Grows};
ghost use Rattle.cr_check_types.specs.Relations.{AreRows};
ghost use Rattle.cr_check_declarators.specs.Functions.{adjusted_type};
ghost use Rattle.cr_check_declarations.specs.Before.{before_at, AreColumns, rows_of};
ghost use Rattle.cr_check_declarations.specs.Named.{listed_by, parameter_nodes, parameters_in, parameters_by, name_number, member_of, members_by};

use crate::before::{Columns, members_at, named_of, parameters_at};
use crate::tree::{Tree, kind_of, parts_of};
use cr_check_declarators::adjusted;
use cr_check_expressions::{Member, part_at};
use cr_check_types::Table;
use cr_rows::{Row, entry_at};
use cr_scopes_events::declared_by;
use cr_syntax::{Kind, Node};
use std::alloc::{AllocError, Global};

/// The parameters of a list, which is a lone parameter itself where it is no such list.
pub(crate) fn parameter_nodes(
    alloc: Global,
    tree: &Tree,
    list: Option<u32>,
) -> Result<Vec<u32>, AllocError>
    ensures { IfOk result (λ nodes. nodes.items ≡ parameter_nodes tree.now.nodes.now list) }
{
    match list {
        None => Ok(Vec::new(alloc)),
        Some(list) => {
            let parts = parts_of(tree.nodes, Some(list));
            listed_by(alloc, kind_of(tree.nodes, Some(list)), parts, list)
        }
    }
}

fn listed_by(
    alloc: Global,
    kind: Option<Kind>,
    parts: &[u32],
    list: u32,
) -> Result<Vec<u32>, AllocError>
    ensures { IfOk result (λ nodes. nodes.items ≡ listed_by kind parts.now list) }
{
    match kind {
        Some(Kind::VoidParameters) => Ok(Vec::new(alloc)),
        Some(Kind::Parameters | Kind::VariadicParameters) => parts.to_vec(alloc),
        _ => one(alloc, list),
    }
}

fn one(alloc: Global, node: u32) -> Result<Vec<u32>, AllocError>
    ensures { IfOk result (λ nodes. nodes.items ≡ node ∷ []) }
{
    let mut nodes = Vec::new(alloc);
    nodes.push(node)?;
    Ok(nodes)
}

/// The rows of the types of the parameters of a declarator's function. The error is want of memory.
pub fn parameters(
    alloc: Global,
    table: &mut Table,
    tree: &Tree,
    columns: &Columns,
    node: &Node,
) -> Result<Row<u32>, AllocError>
    requires { AreColumns table.old columns.now }
    ensures within { IfOk result (λ rows. AreRows table.new rows) }
    ensures is { IfOk result (λ rows. map (type_at table.new) rows ≡ parameters_by node.now.kind tree.now.nodes.now (before_at table.old columns.now) node.now) }
    ensures grows { OnOk result (Grows table.old table.new) }
{
    let parts = node.parts.as_slice();
    match node.kind {
        Kind::FunctionDeclarator => {
            let list = parameter_nodes(alloc, tree, part_at(parts, 1))?;
            adjusted_rows(alloc, table, columns, list.as_slice())
        }
        Kind::PointerDeclarator | Kind::ArrayDeclarator => {
            inherited(alloc, table, columns, part_at(parts, 0))
        }
        Kind::GroupDeclarator | Kind::InitDeclarator => {
            inherited(alloc, table, columns, part_at(parts, 0))
        }
        _ => Ok(Row::new(alloc)),
    }
}

// Those of the inner declarator's function.
fn inherited(
    alloc: Global,
    table: &Table,
    columns: &Columns,
    inner: Option<u32>,
) -> Result<Row<u32>, AllocError>
    requires { AreColumns table.now columns.now }
    ensures within { IfOk result (λ rows. AreRows table.now rows) }
    ensures is { IfOk result (λ rows. map (type_at table.now) rows ≡ parameters_in (before_at table.now columns.now) inner) }
{
    match inner {
        None => Ok(Row::new(alloc)),
        Some(inner) => Ok(Row::from_vec(parameters_at(columns, inner).to_vec(alloc)?)),
    }
}

fn adjusted_rows(
    alloc: Global,
    table: &mut Table,
    columns: &Columns,
    list: &[u32],
) -> Result<Row<u32>, AllocError>
    requires { AreColumns table.old columns.now }
    ensures within { IfOk result (λ rows. AreRows table.new rows) }
    ensures is { IfOk result (λ rows. map (type_at table.new) rows ≡ map (λ p. adjusted_type ((before_at table.old columns.now).named p)) list.now) }
    ensures grows { OnOk result (Grows table.old table.new) }
{
    let mut rows = Vec::new(alloc);
    for part in list {
        let row = named_of(table, columns, Some(*part));
        rows.push(adjusted(table, row)?)?;
    }
    Ok(Row::from_vec(rows))
}

/// The members of a member declaration or of the content of a structure, in order. The error is want of memory.
#[tactic(auto, using(crate::proofs::Adjusted::declared_within))]
pub fn members(
    alloc: Global,
    tree: &Tree,
    columns: &Columns,
    node: &Node,
) -> Result<Row<Member>, AllocError>
    ensures within { IfOk result (λ members. (shapes : List shape.Shape) → AreColumns shapes columns.now → AreRows shapes (rows_of members)) }
    ensures is { IfOk result (λ members. members ≡ members_by node.now.kind tree.now.nodes.now tree.now.names.now columns.now.named.now columns.now.members.now node.now.parts) }
{
    let parts = node.parts.as_slice();
    match node.kind {
        Kind::MemberDeclaration => declared_members(alloc, tree, columns, rest(parts)),
        Kind::StructContent => all_members(alloc, columns, parts),
        _ => Ok(Row::new(alloc)),
    }
}

/// All but the first.
pub(crate) fn rest(parts: &[u32]) -> &[u32]
    ensures { result.now ≡ drop 1 parts.now }
{
    &parts[1.min(parts.len())..]
}

fn declared_members(
    alloc: Global,
    tree: &Tree,
    columns: &Columns,
    declarators: &[u32],
) -> Result<Row<Member>, AllocError>
    ensures { IfOk result (λ members. members ≡ map (member_of tree.now.nodes.now tree.now.names.now columns.now.named.now) declarators.now) }
{
    let mut members = Row::new(alloc);
    for declarator in declarators {
        members.push(member_of(tree, columns, *declarator))?;
    }
    Ok(members)
}

fn member_of(tree: &Tree, columns: &Columns, declarator: u32) -> Member
    ensures { result ≡ member_of tree.now.nodes.now tree.now.names.now columns.now.named.now declarator }
{
    Member {
        name: name_number(tree.names, declared_by(tree.nodes, declarator).name),
        row: entry_at(columns.named, declarator as usize, 0),
    }
}

fn name_number(names: &[u32], token: Option<u32>) -> u32
    ensures { result ≡ name_number names.now token }
{
    match token {
        None => 0,
        Some(token) => entry_at(names, token as usize, 0),
    }
}

fn all_members(
    alloc: Global,
    columns: &Columns,
    declarations: &[u32],
) -> Result<Row<Member>, AllocError>
    ensures { IfOk result (λ members. members ≡ flat_map (λ p. slice_index_or columns.now.members.now p []) declarations.now) }
{
    let mut all = Row::new(alloc);
    for declaration in declarations {
        append(&mut all, members_at(columns, *declaration))?;
    }
    Ok(all)
}

fn append(all: &mut Row<Member>, members: &[Member]) -> Result<(), AllocError>
    ensures { OnOk result (all.new ≡ all.old ++ members.now) }
{
    for member in members {
        all.push(*member)?;
    }
    Ok(())
}
