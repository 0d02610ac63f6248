ghost use Rattle.std.specs.Prelude.{◌≡◌, ◌<◌, ◌-◌, None, Some, IfOk, length, slice_get};
ghost use Rattle.std.specs.List.{list_any};
ghost use Rattle.cr_check_types.specs.Types.{type_at};
ghost use Rattle.cr_check_expressions.specs.Breaks.{first_of, argument_faults};
ghost use Rattle.cr_check_declarations.specs.Before.{before_at, AreColumns, first_in};
ghost use Rattle.cr_check_declarations.specs.Faults.{name_in, parameter_name, list_in, is_nameless, parameter_fault, parameter_faults, definition_faults};

use crate::before::{Columns, declarator_of, named_of};
use crate::faults::{fault_at, name_or};
use crate::lists::parameter_nodes;
use crate::tree::{Tree, first_of, parts_of};
use cr_check_declarators::{Specified, inline_fault, is_whole_object, storage_fault};
use cr_check_enclosing::Place;
use cr_check_expressions::{Break, break_if, lesser, part_at};
use cr_check_types::Table;
use cr_scopes_events::declared_by;
use std::alloc::{AllocError, Global};

/// The first constraint that the definition of a function breaks (C11 6.9.1): its storage class (K2), `inline` (K4), that it declares
/// a function itself and names all its parameters (K10), and that these have complete types (K6).
pub(crate) fn definition_fault(
    alloc: Global,
    table: &Table,
    tree: &Tree,
    columns: &Columns,
    at: u32,
    said: Specified,
    declarator: Option<u32>,
    function: Option<u32>,
) -> Result<Option<Break>, AllocError>
    requires { AreColumns table.now columns.now }
    ensures { IfOk result (λ b. b ≡ first_of (definition_faults (before_at table.now columns.now) tree.now.nodes.now at said declarator function)) }
{
    let is_function = function.is_some();
    let storage = fault_at(2, storage_fault(said, Place::Definition, is_function));
    let inline = fault_at(4, inline_fault(said, Place::Definition, is_function));
    let name = name_or(name_in(tree, declarator), first_of(tree.nodes, declarator));
    let other = break_if(10, name, !is_function);
    let list = list_in(tree, function);
    let bracket = first_of(tree.nodes, list).saturating_sub(1);
    let list = parameter_nodes(alloc, tree, list)?;
    let nameless = break_if(10, bracket, has_nameless(tree, &list));
    let parameters = parameter_faults(table, tree, columns, at, &list);
    let last = lesser(other, lesser(nameless, parameters));
    Ok(lesser(storage, lesser(inline, last)))
}

/// The token of the name that a declarator declares.
pub fn name_in(tree: &Tree, declarator: Option<u32>) -> Option<u32>
    ensures { result ≡ name_in tree.now.nodes.now declarator }
{
    match declarator {
        None => None,
        Some(declarator) => declared_by(tree.nodes, declarator).name,
    }
}

fn parameter_name(tree: &Tree, part: u32) -> Option<u32>
    ensures { result ≡ parameter_name tree.now.nodes.now part }
{
    name_in(tree, part_at(parts_of(tree.nodes, Some(part)), 1))
}

fn list_in(tree: &Tree, function: Option<u32>) -> Option<u32>
    ensures { result ≡ list_in tree.now.nodes.now function }
{
    match function {
        None => None,
        Some(function) => part_at(parts_of(tree.nodes, Some(function)), 1),
    }
}

fn has_nameless(tree: &Tree, list: &Vec<u32>) -> bool
    ensures { result ≡ list_any (is_nameless tree.now.nodes.now) list.now.items }
{
    let mut nameless = false;
    for part in list {
        nameless = nameless || parameter_name(tree, *part).is_none();
    }
    nameless
}

fn parameter_faults(
    table: &Table,
    tree: &Tree,
    columns: &Columns,
    at: u32,
    list: &Vec<u32>,
) -> Option<Break>
    requires { AreColumns table.now columns.now }
    ensures { result ≡ first_of (parameter_faults (before_at table.now columns.now) tree.now.nodes.now at list.now.items) }
{
    let mut first = None;
    for k in 0..list.len() {
        let part = part_at(list.as_slice(), k);
        first = lesser(parameter_fault(table, tree, columns, at, part), first);
    }
    first
}

fn parameter_fault(
    table: &Table,
    tree: &Tree,
    columns: &Columns,
    at: u32,
    part: Option<u32>,
) -> Option<Break>
    requires { AreColumns table.now columns.now }
    ensures { result ≡ parameter_fault (before_at table.now columns.now) tree.now.nodes.now at part }
{
    match part {
        None => None,
        Some(part) => {
            let row = named_of(table, columns, Some(part));
            let name = name_or(parameter_name(tree, part), first_of(tree.nodes, Some(part)));
            let declarator = part_at(parts_of(tree.nodes, Some(part)), 1);
            let function = declarator_of(columns, declarator).function.is_some();
            let whole = is_whole_object(table, tree.nodes, at, row);
            break_if(6, name, !function && !whole)
        }
    }
}
