ghost use Rattle.std.specs.Prelude.{◌≡◌, ◌<◌, ◌&&◌, ◌||◌, ℕ, not, None, IfOk, OnOk, fold, length, slice_get, slice_index_or, if◌then◌else◌};
ghost use Rattle.cr_check_types.specs.Types.{type_at, IsRow, Grows, unknown};
ghost use Rattle.cr_check_declarators.specs.Specifiers.{nothing};
ghost use Rattle.cr_check_declarators.specs.Functions.{adjusted_type};
ghost use Rattle.cr_check_declarations.specs.Before.{before_at, AreColumns, type_in};
ghost use Rattle.cr_check_declarations.specs.Specifiers.{structure_by, structure_of, content_of, was_negative, last_part, enumeration, given_by, is_given, given_in, given_of, specified_type};
ghost use Rattle.cr_check_declarations.specs.Named.{is_declarator, type_by, is_listed, tag_breaks, is_misused, named_by, is_parameter, adjusted_if, specifiers_in, declaration_of};

use crate::before::{Columns, enumerated_of, named_of, specified_of};
use crate::declaration::{declaration_of, is_declarator, is_parameter, specifiers_in};
use crate::tree::{Tag, Tree, kind_of, tag_of, visible};
use cr_check_declarators::{
    Base, Declarator, Enumerated, Specified, adjusted, declare, enumeration_kind, named_type,
    tag_agrees,
};
use cr_check_expressions::part_at;
use cr_check_types::{Shape, Table};
use cr_syntax::{CType, Kind, Node};
use std::alloc::AllocError;

/// A row of the type that a node names, by what it says, has and derives itself: the type of specifiers, of a type name, of a
/// parameter, and of a whole declarator's name, or of the result of its function. The error is want of memory.
pub fn named(
    table: &mut Table,
    tree: &Tree,
    columns: &Columns,
    said: Specified,
    own: Declarator,
    derived: u32,
    at: u32,
    node: &Node,
) -> Result<u32, AllocError>
    requires columns { AreColumns table.old columns.now }
    requires derived { derived < length table.old }
    ensures made { IfOk result (λ r. IsRow table.new r (named_by node.now.kind tree.now said own (type_at table.old derived) (before_at table.old columns.now) at node.now)) }
    ensures grows { OnOk result (Grows table.old table.new) }
{
    let parts = node.parts.as_slice();
    match node.kind {
        Kind::TypeName | Kind::Parameter => Ok(named_of(table, columns, part_at(parts, 1))),
        Kind::InitDeclarator => Ok(named_of(table, columns, part_at(parts, 0))),
        kind if is_declarator(kind) => {
            type_by(table, tree, columns, own, derived, declaration_of(tree, at))
        }
        kind if is_misused(kind, tree.nodes, tag_of(tree, at), at) => Ok(0),
        _ => specified_type(table, tree, columns, said, at, node),
    }
}

// Whether a specifier's tag isn't used as it is declared first.
fn is_misused(kind: Kind, nodes: &[Node], tag: Option<Tag>, at: u32) -> bool
    ensures { result ≡ is_misused kind nodes.now tag at }
{
    match tag {
        None => false,
        Some(tag) => tag_breaks(
            kind,
            kind_of(nodes, Some(tag.first)),
            is_listed(tag.content, at),
        ),
    }
}

pub(crate) fn is_listed(content: Option<u32>, at: u32) -> bool
    ensures { result ≡ is_listed content at }
{
    match content {
        None => false,
        Some(content) => content < at,
    }
}

pub(crate) fn tag_breaks(kind: Kind, first: Option<Kind>, listed: bool) -> bool
    ensures { result ≡ tag_breaks kind first listed }
{
    match first {
        None => false,
        Some(first) => !tag_agrees(kind, first, listed),
    }
}

// The type that a declarator of a declaration gives.
fn type_by(
    table: &mut Table,
    tree: &Tree,
    columns: &Columns,
    own: Declarator,
    derived: u32,
    declaration: Option<u32>,
) -> Result<u32, AllocError>
    requires columns { AreColumns table.old columns.now }
    requires derived { derived < length table.old }
    ensures made { IfOk result (λ r. IsRow table.new r (type_by tree.now.nodes.now (before_at table.old columns.now) own (type_at table.old derived) declaration)) }
    ensures grows { OnOk result (Grows table.old table.new) }
{
    match declaration {
        None => Ok(0),
        Some(declaration) => {
            let base = named_of(table, columns, specifiers_in(tree, Some(declaration)));
            let row = declare(table, own, derived, base)?;
            adjusted_if(
                table,
                is_parameter(kind_of(tree.nodes, Some(declaration))),
                row,
            )
        }
    }
}

fn adjusted_if(table: &mut Table, parameter: bool, row: u32) -> Result<u32, AllocError>
    requires { row < length table.old }
    ensures made { IfOk result (λ r. IsRow table.new r (adjusted_if parameter (type_at table.old row))) }
    ensures grows { OnOk result (Grows table.old table.new) }
{
    if parameter {
        adjusted(table, row)
    } else {
        Ok(row)
    }
}

// The type of specifiers.
fn specified_type(
    table: &mut Table,
    tree: &Tree,
    columns: &Columns,
    said: Specified,
    at: u32,
    node: &Node,
) -> Result<u32, AllocError>
    requires { AreColumns table.old columns.now }
    ensures made { IfOk result (λ r. IsRow table.new r (specified_type said node.now.kind (slice_index_or tree.now.tags.now at None) (slice_index_or tree.now.visible.now at None) (before_at table.old columns.now) at node.now)) }
    ensures grows { OnOk result (Grows table.old table.new) }
{
    let given = given_of(table, tree, columns, at, node)?;
    named_type(table, said, given)
}

fn given_of(
    table: &mut Table,
    tree: &Tree,
    columns: &Columns,
    at: u32,
    node: &Node,
) -> Result<u32, AllocError>
    requires { AreColumns table.old columns.now }
    ensures made { IfOk result (λ r. IsRow table.new r (given_of node.now.kind (slice_index_or tree.now.tags.now at None) (slice_index_or tree.now.visible.now at None) (before_at table.old columns.now) at node.now)) }
    ensures grows { OnOk result (Grows table.old table.new) }
{
    let parts = node.parts.as_slice();
    match node.kind {
        Kind::Specifiers | Kind::PlainSpecifiers => Ok(given_in(table, columns, parts)),
        Kind::StructContent => structure(table, at),
        Kind::StructTag => structure_of(table, tag_of(tree, at)),
        Kind::EnumContent => enumeration(table, enumerated_of(columns, last_part(parts))),
        Kind::EnumTag => Ok(named_of(table, columns, content_of(tag_of(tree, at)))),
        Kind::TypedefName => Ok(named_of(table, columns, visible(tree, at))),
        _ => Ok(0),
    }
}

fn given_in(table: &Table, columns: &Columns, parts: &[u32]) -> u32
    requires { AreColumns table.now columns.now }
    ensures within { result < length table.now }
    ensures is { type_at table.now result ≡ given_in (before_at table.now columns.now) parts.now }
{
    let mut given = 0;
    for part in parts {
        if is_given(specified_of(columns, Some(*part)).base) {
            given = named_of(table, columns, Some(*part));
        }
    }
    given
}

fn is_given(base: Base) -> bool
    ensures { result ≡ is_given base }
{
    match base {
        Base::Given => true,
        _ => false,
    }
}

// The type of the structure with a node's content.
fn structure(table: &mut Table, node: u32) -> Result<u32, AllocError>
    ensures made { IfOk result (λ r. IsRow table.new r (structure_by node None)) }
    ensures grows { OnOk result (Grows table.old table.new) }
{
    table.add(Shape::plain(CType::Struct(node)))
}

fn structure_of(table: &mut Table, tag: Option<Tag>) -> Result<u32, AllocError>
    requires first { 0 < length table.old }
    requires unknown { type_at table.old 0 ≡ unknown }
    ensures made { IfOk result (λ r. IsRow table.new r (structure_of tag)) }
    ensures grows { OnOk result (Grows table.old table.new) }
{
    match tag {
        None => Ok(0),
        Some(tag) => structure(table, tag.content.unwrap_or(tag.first)),
    }
}

fn enumeration(table: &mut Table, last: Option<Enumerated>) -> Result<u32, AllocError>
    ensures made { IfOk result (λ r. IsRow table.new r (enumeration last)) }
    ensures grows { OnOk result (Grows table.old table.new) }
{
    let kind = enumeration_kind(was_negative(last));
    table.add(Shape::plain(CType::Int(kind)))
}

fn was_negative(last: Option<Enumerated>) -> bool
    ensures { result ≡ was_negative last }
{
    match last {
        None => false,
        Some(last) => last.negative,
    }
}

fn last_part(parts: &[u32]) -> Option<u32>
    ensures { result ≡ last_part parts.now }
{
    part_at(parts, parts.len().saturating_sub(1))
}

// The specifier with a tag's content.
fn content_of(tag: Option<Tag>) -> Option<u32>
    ensures { result ≡ content_of tag }
{
    match tag {
        None => None,
        Some(tag) => tag.content,
    }
}
