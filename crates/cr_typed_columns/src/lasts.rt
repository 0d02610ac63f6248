// The nodes that declare what the names of a unit stand for.
ghost use Rattle.std.specs.Prelude.{◌≡◌, ◌<◌, ℕ, Option, Some, None, IfOk, length, slice_get, slice_index_or, slice_set, if◌then◌else◌};
ghost use Rattle.cr_scopes.specs.Resolved.{is_number};
ghost use Rattle.cr_scopes_bindings.specs.Last.{AreLast};
ghost use Rattle.cr_scopes_bindings.specs.Entities.{entity_at as entity_at_lem, entity_if as entity_if_lem, entity_within, first_of, first_if, first_in};
ghost use Rattle.cr_typed_columns.specs.Reading.{parsed_of};
ghost use Rattle.cr_typed_columns.specs.Entities.{is_name, named_token as named_token_lem, last_of, name_node as name_node_lem, entity_of as entity_of_lem, first_declared as first_declared_lem, last_declared as last_declared_lem, is_definition, declared_token as declared_token_lem, defined_entity as defined_entity_lem, definition_of as definition_of_lem, whole_of as whole_of_lem, declared_of as declared_of_lem, is_object, is_declaration, is_extern, is_extern_class, is_open, keeps, kept_entity as kept_entity_lem, is_kept as is_kept_lem, AreFound};

use crate::checked::CheckedColumns;
use crate::reading::{entry, kind_of, part_at, part_of};
use cr_check_declarators::{Class, Storage, UNSAID};
use cr_check_expressions::Declared;
use cr_rows::Row;
use cr_scopes::{Entity, Names};
use cr_scopes_events::{declared_by, first_at};
use cr_syntax::{Kind, Node, Unit, kind_at, number_of};
use std::alloc::{AllocError, Global};

/// The last nodes of each kind that declare.
#[derive(Drop)]
pub(crate) struct Found {
    /// For each token the node of the identifier that it declares.
    names: Row<Option<u32>>,
    /// For each entity the last of those.
    lasts: Row<Option<u32>>,
    /// For each entity its function's definition.
    definitions: Row<Option<u32>>,
    /// For each entity the last node that defines its object.
    kept: Row<Option<u32>>,
}

/// What declares the names of a unit.
pub(crate) fn declarations_of(
    alloc: Global,
    unit: &Unit,
    checked: &CheckedColumns,
) -> Result<Found, AllocError>
    ensures { IfOk result (λ f. AreFound (parsed_of unit.now) checked.now f) }
{
    let nodes = unit.nodes.as_slice();
    let tokens = unit.tokens.list.len();
    let entities = checked.names.entities.len();
    Ok(Found {
        names: Row::from_vec(names(alloc, nodes, tokens)?),
        lasts: Row::from_vec(lasts(alloc, nodes, checked.names, entities)?),
        definitions: Row::from_vec(definitions(alloc, nodes, checked.names, entities)?),
        kept: Row::from_vec(kept(alloc, nodes, checked, entities)?),
    })
}

// A number has this key from now on, if it has any.
fn put(column: &mut Vec<Option<u32>>, key: Option<u32>, number: u32)
    ensures count { length column.new.items ≡ length column.old.items }
    ensures each { (k : ℕ) → k < length column.old.items → slice_index_or column.new.items k None ≡ (if is_number key k then Some number else slice_index_or column.old.items k None) }
{
    match key {
        Some(key) => set(column, key as usize, Some(number)),
        None => {}
    }
}

fn set(column: &mut Vec<Option<u32>>, at: usize, entry: Option<u32>)
    ensures { column.new.items ≡ slice_set column.old.items at entry }
{
    if at < column.len() {
        column[at] = entry;
    }
}

// The last number with a key.
#[tactic(auto, using(crate::proofs::Lookups::read))]
fn last_in(column: &[Option<u32>], key: Option<u32>) -> Option<u32>
    ensures { (f : ℕ → Option ℕ) (bound keys : ℕ) → AreLast f bound keys column.now → result ≡ last_of f bound keys key }
{
    entry(column, None, key)
}

// ---- identifiers

fn is_name(kind: Option<Kind>) -> bool
    ensures { result ≡ is_name kind }
{
    match kind {
        Some(Kind::NameDeclarator) => true,
        _ => false,
    }
}

/// The token of a declared identifier, at its own node.
pub(crate) fn named_token(nodes: &[Node], at: usize) -> Option<u32>
    ensures { result ≡ named_token_lem nodes.now at }
{
    if is_name(kind_at(nodes, at)) {
        first_at(nodes, at)
    } else {
        None
    }
}

fn names(alloc: Global, nodes: &[Node], tokens: usize) -> Result<Vec<Option<u32>>, AllocError>
    ensures { IfOk result (λ column. AreLast (named_token_lem nodes.now) (length nodes.now) tokens column.items) }
{
    let mut column = vec![in alloc; None; tokens]?;
    for at in 0..nodes.len() {
        let number = number_of(at)?;
        put(&mut column, named_token(nodes, at), number);
    }
    Ok(column)
}

/// The node of the identifier that a token declares.
pub(crate) fn name_node(
    unit: &Unit,
    checked: &CheckedColumns,
    found: &Found,
    token: Option<u32>,
) -> Option<u32>
    requires { AreFound (parsed_of unit.now) checked.now found.now }
    ensures { result ≡ name_node_lem (parsed_of unit.now) token }
{
    last_in(found.names.as_slice(), token)
}

// ---- entities

fn entity_within(count: usize, entity: Option<u32>) -> Option<u32>
    ensures { result ≡ entity_within count entity }
{
    match entity {
        Some(entity) if (entity as usize) < count => Some(entity),
        _ => None,
    }
}

/// What a token stands for.
pub(crate) fn entity_if(names: &Names, token: Option<u32>) -> Option<u32>
    ensures { result ≡ entity_if_lem names.now token }
{
    match token {
        Some(token) => entity_within(
            names.entities.len(),
            entry(names.of_token.as_slice(), None, Some(token)),
        ),
        None => None,
    }
}

/// What a declared identifier stands for.
pub(crate) fn entity_of(nodes: &[Node], names: &Names, at: usize) -> Option<u32>
    ensures { result ≡ entity_of_lem nodes.now names.now at }
{
    entity_if(names, named_token(nodes, at))
}

fn lasts(
    alloc: Global,
    nodes: &[Node],
    names: &Names,
    entities: usize,
) -> Result<Vec<Option<u32>>, AllocError>
    ensures { IfOk result (λ column. AreLast (entity_of_lem nodes.now names.now) (length nodes.now) entities column.items) }
{
    let mut column = vec![in alloc; None; entities]?;
    for at in 0..nodes.len() {
        let number = number_of(at)?;
        put(&mut column, entity_of(nodes, names, at), number);
    }
    Ok(column)
}

fn first_in(tokens: &[u32]) -> Option<u32>
    ensures { result ≡ first_in tokens.now }
{
    match tokens {
        [] => None,
        [token, ..] => Some(*token),
    }
}

// The token that declares an entity first.
fn first_of(names: &Names, entity: Option<u32>) -> Option<u32>
    ensures { result ≡ first_of names.now entity }
{
    match entity {
        Some(entity) => first_token(names.entities.as_slice(), entity as usize),
        None => None,
    }
}

fn first_token(entities: &[Entity], entity: usize) -> Option<u32>
    ensures { result ≡ first_if (slice_get entities.now entity) }
{
    if entity < entities.len() {
        first_in(entities[entity].declared.as_slice())
    } else {
        None
    }
}

/// The node that declares an entity first.
pub(crate) fn first_declared(
    unit: &Unit,
    checked: &CheckedColumns,
    found: &Found,
    entity: Option<u32>,
) -> Option<u32>
    requires { AreFound (parsed_of unit.now) checked.now found.now }
    ensures { result ≡ first_declared_lem (parsed_of unit.now) checked.now.names.now entity }
{
    name_node(unit, checked, found, first_of(checked.names, entity))
}

/// The node that declares an entity last.
pub(crate) fn last_declared(
    unit: &Unit,
    checked: &CheckedColumns,
    found: &Found,
    entity: Option<u32>,
) -> Option<u32>
    requires { AreFound (parsed_of unit.now) checked.now found.now }
    ensures { result ≡ last_declared_lem unit.now.nodes checked.now.names.now entity }
{
    last_in(found.lasts.as_slice(), entity)
}

// ---- functions

/// Whether a node defines a function.
pub(crate) fn is_definition(kind: Option<Kind>) -> bool
    ensures { result ≡ is_definition kind }
{
    match kind {
        Some(Kind::FunctionDefinition) => true,
        _ => false,
    }
}

/// The identifier that a declarator declares.
pub(crate) fn declared_token(nodes: &[Node], declarator: Option<u32>) -> Option<u32>
    ensures { result ≡ declared_token_lem nodes.now declarator }
{
    match declarator {
        Some(declarator) => declared_by(nodes, declarator).name,
        None => None,
    }
}

fn defined_entity(nodes: &[Node], names: &Names, at: usize) -> Option<u32>
    ensures { result ≡ defined_entity_lem nodes.now names.now at }
{
    if is_definition(kind_at(nodes, at)) {
        entity_if(names, declared_token(nodes, part_at(nodes, at, 1)))
    } else {
        None
    }
}

fn definitions(
    alloc: Global,
    nodes: &[Node],
    names: &Names,
    entities: usize,
) -> Result<Vec<Option<u32>>, AllocError>
    ensures { IfOk result (λ column. AreLast (defined_entity_lem nodes.now names.now) (length nodes.now) entities column.items) }
{
    let mut column = vec![in alloc; None; entities]?;
    for at in 0..nodes.len() {
        let number = number_of(at)?;
        put(&mut column, defined_entity(nodes, names, at), number);
    }
    Ok(column)
}

/// The definition of a function.
pub(crate) fn definition_of(
    unit: &Unit,
    checked: &CheckedColumns,
    found: &Found,
    entity: Option<u32>,
) -> Option<u32>
    requires { AreFound (parsed_of unit.now) checked.now found.now }
    ensures { result ≡ definition_of_lem unit.now.nodes checked.now.names.now entity }
{
    last_in(found.definitions.as_slice(), entity)
}

// ---- objects

/// The whole declarator that declares a name.
pub(crate) fn whole_of(nodes: &[Node], checked: &CheckedColumns, at: usize) -> Option<u32>
    ensures { result ≡ whole_of_lem nodes.now checked.now at }
{
    entry(checked.declarers, None, named_token(nodes, at))
}

/// What a whole declarator declares.
pub(crate) fn declared_of(checked: &CheckedColumns, whole: Option<u32>) -> Declared
    ensures { result ≡ declared_of_lem checked.now whole }
{
    entry(checked.declared, Declared::Unclear, whole)
}

fn is_object(declared: Declared) -> bool
    ensures { result ≡ is_object declared }
{
    match declared {
        Declared::Object(..) => true,
        _ => false,
    }
}

fn is_declaration(kind: Option<Kind>) -> bool
    ensures { result ≡ is_declaration kind }
{
    match kind {
        Some(Kind::Declaration) => true,
        _ => false,
    }
}

fn is_extern(storage: Option<Storage>) -> bool
    ensures { result ≡ is_extern storage }
{
    match storage {
        Some(storage) => is_extern_class(storage.class),
        None => false,
    }
}

fn is_extern_class(class: Class) -> bool
    ensures { result ≡ is_extern_class class }
{
    match class {
        Class::Extern => true,
        _ => false,
    }
}

// Whether a declaration says `extern` and has no initialiser.
fn is_open(nodes: &[Node], checked: &CheckedColumns, whole: Option<u32>) -> bool
    ensures { result ≡ is_open nodes.now checked.now whole }
{
    let above = entry(checked.above, None, whole);
    let specified = entry(checked.specified, UNSAID, part_of(nodes, above, 0));
    is_declaration(kind_of(nodes, above)) && is_extern(specified.storage)
}

fn keeps(nodes: &[Node], checked: &CheckedColumns, whole: Option<u32>) -> bool
    ensures { result ≡ keeps nodes.now checked.now whole }
{
    is_object(declared_of(checked, whole)) && !is_open(nodes, checked, whole)
}

fn kept_entity(nodes: &[Node], checked: &CheckedColumns, at: usize) -> Option<u32>
    ensures { result ≡ kept_entity_lem nodes.now checked.now at }
{
    if keeps(nodes, checked, whole_of(nodes, checked, at)) {
        entity_of(nodes, checked.names, at)
    } else {
        None
    }
}

fn kept(
    alloc: Global,
    nodes: &[Node],
    checked: &CheckedColumns,
    entities: usize,
) -> Result<Vec<Option<u32>>, AllocError>
    ensures { IfOk result (λ column. AreLast (kept_entity_lem nodes.now checked.now) (length nodes.now) entities column.items) }
{
    let mut column = vec![in alloc; None; entities]?;
    for at in 0..nodes.len() {
        let number = number_of(at)?;
        put(&mut column, kept_entity(nodes, checked, at), number);
    }
    Ok(column)
}

/// Whether some declaration of an object defines it.
pub(crate) fn is_kept(
    unit: &Unit,
    checked: &CheckedColumns,
    found: &Found,
    entity: Option<u32>,
) -> bool
    requires { AreFound (parsed_of unit.now) checked.now found.now }
    ensures { result ≡ is_kept_lem unit.now.nodes checked.now entity }
{
    last_in(found.kept.as_slice(), entity).is_some()
}
