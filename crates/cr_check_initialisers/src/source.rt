ghost use Rattle.std.specs.Prelude.{◌≡◌, ◌≤◌, [], IfOk, length, slice_get, slice_index_or};
ghost use Rattle.cr_check_types.specs.Types.{type_at, type_of, room_of};
ghost use Rattle.cr_check_operands.specs.Values.{valued_at, room_of as room_of_value, value_of_seen, seen_at};
ghost use Rattle.cr_check_initialisers.specs.Known.{known_of, is_text_if, is_list_if};

use crate::anchor::Anchor;
use cr_check_constants::Constant;
use cr_check_expressions::Member;
use cr_check_operands::{Fact, Value, value_of};
use cr_check_types::{Layout, Shape, Table};
use cr_rows::{Row, entry_at};
use cr_syntax::{CType, Kind, Node};
use std::alloc::AllocError;

/// What is known of types and nodes, in columns: the entry of a node is at its number.
#[derive(Clone, Copy)]
pub struct Source<'a> {
    pub table: &'a Table,
    pub nodes: &'a [Node],
    /// What the expressions have.
    pub facts: &'a [Fact],
    /// What of their addresses is constant.
    pub anchors: &'a [Anchor],
    /// The layouts of the structures, at their contents.
    pub layouts: &'a [Layout],
    /// Their members, in order.
    pub members: &'a [Row<Member>],
}

/// The shape of a row; that of no type where there is no such row.
#[tactic(auto, using(cr_check_types::proofs::Tables::beyond))]
pub(crate) fn shape_at(source: &Source, row: u32) -> Shape
    ensures is { type_at source.now.table.now row ≡ type_of (type_at source.now.table.now) result }
    ensures below { room_of result ≤ row }
{
    if (row as usize) < source.table.len() {
        source.table.shape(row)
    } else {
        Shape::plain(CType::Unknown)
    }
}

/// The cells of a row's type. The error is want of memory: they are more than can be counted.
#[tactic(auto, unfolding(crate::specs::Known::known_of))]
pub(crate) fn cells_at(source: &Source, row: u32) -> Result<u64, AllocError>
    ensures { IfOk result (λ n. n ≡ (known_of source.now).cells (type_at source.now.table.now row)) }
{
    if (row as usize) >= source.table.len() {
        return Ok(0);
    }
    let cells = source.table.layout(source.layouts, row).cells;
    if cells == u64::MAX {
        return Err(AllocError);
    }
    Ok(cells)
}

/// A structure's members.
pub(crate) fn members_at<'a>(source: &Source<'a>, node: u32) -> &'a [Member]
    ensures { result.now ≡ slice_index_or source.now.members.now node [] }
{
    match source.members.get(node as usize) {
        Some(members) => members.as_slice(),
        None => &[],
    }
}

fn fact_at(source: &Source, node: u32) -> Option<Fact>
    ensures { result ≡ slice_get source.now.facts.now node }
{
    source.facts.get(node as usize).copied()
}

/// The shape of an expression's type.
#[tactic(auto, unfolding(crate::specs::Known::known_of))]
pub(crate) fn shape_of(source: &Source, node: u32) -> Shape
    ensures { ((known_of source.now).seen node).type ≡ type_of (type_at source.now.table.now) result }
{
    match fact_at(source, node) {
        Some(fact) => shape_at(source, fact.row),
        None => Shape::plain(CType::Unknown),
    }
}

/// The value of an expression.
#[tactic(auto, unfolding(crate::specs::Known::known_of))]
pub(crate) fn value_at(source: &Source, node: u32) -> Value
    ensures is { valued_at source.now.table.now result ≡ value_of_seen ((known_of source.now).seen node) }
    ensures within { room_of_value result ≤ length source.now.table.now }
{
    match fact_at(source, node) {
        Some(fact) => value_by(source, fact),
        None => Value::Unknown,
    }
}

/// What an expression is as an integer constant.
#[tactic(auto, unfolding(crate::specs::Known::known_of))]
pub(crate) fn constant_at(source: &Source, node: u32) -> Constant
    ensures { result ≡ ((known_of source.now).seen node).constant }
{
    match fact_at(source, node) {
        Some(fact) => fact.constant,
        None => Constant::NotConstant,
    }
}

/// What of an expression's address is constant.
#[tactic(auto, unfolding(crate::specs::Known::known_of))]
pub(crate) fn anchor_at(source: &Source, node: u32) -> Anchor
    ensures { result ≡ (known_of source.now).anchor node }
{
    entry_at(source.anchors, node as usize, Anchor::Moving)
}

/// Whether an expression is a string literal.
#[tactic(auto, unfolding(crate::specs::Known::known_of))]
pub(crate) fn is_literal(source: &Source, node: u32) -> bool
    ensures { result ≡ (known_of source.now).literal node }
{
    is_text_in(source.nodes, node as usize)
}

fn is_text_in(nodes: &[Node], at: usize) -> bool
    ensures { result ≡ is_text_if (slice_get nodes.now at) }
{
    at < nodes.len() && nodes[at].kind == Kind::Text
}

/// Whether a node is a list in braces.
#[tactic(auto, unfolding(crate::specs::Known::known_of))]
pub(crate) fn is_listed(source: &Source, node: u32) -> bool
    ensures { result ≡ (known_of source.now).listed node }
{
    is_list_in(source.nodes, node as usize)
}

fn is_list_in(nodes: &[Node], at: usize) -> bool
    ensures { result ≡ is_list_if (slice_get nodes.now at) }
{
    at < nodes.len() && nodes[at].kind == Kind::InitializerList
}

/// The initialisers of a list in braces.
#[tactic(auto, unfolding(crate::specs::Known::known_of))]
pub(crate) fn initialisers<'a>(source: &Source<'a>, node: u32) -> &'a [u32]
    ensures { result.now ≡ (known_of source.now).initialisers node }
{
    match source.nodes.get(node as usize) {
        Some(list) => list.parts.as_slice(),
        None => &[],
    }
}

/// The first token of a node.
#[tactic(auto, unfolding(crate::specs::Known::known_of))]
pub(crate) fn first_at(source: &Source, node: u32) -> u32
    ensures { result ≡ (known_of source.now).first node }
{
    match source.nodes.get(node as usize) {
        Some(found) => found.first,
        None => 0,
    }
}

/// The value of an expression by its fact; none where the table doesn't have its row.
#[tactic(auto, using(cr_check_types::proofs::Tables::beyond))]
pub(crate) fn value_by(source: &Source, fact: Fact) -> Value
    ensures is { valued_at source.now.table.now result ≡ value_of_seen (seen_at source.now.table.now fact) }
    ensures within { room_of_value result ≤ length source.now.table.now }
{
    if (fact.row as usize) < source.table.len() {
        value_of(source.table, fact)
    } else {
        Value::Unknown
    }
}
