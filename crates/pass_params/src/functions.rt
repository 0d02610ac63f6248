// Functions, their parameters, and their calls.
ghost use Rattle.std.specs.Prelude.{◌≡◌, ◌++◌, IfOk, OnOk};
ghost use Rattle.pass_levels.specs.Nodes.{node_at};
ghost use Rattle.pass_params.specs.Functions.{calls_by, calls_in, count_of, declares_same, functions_by, functions_in, is_next, name_same, names_same, number_of, part_at, row_of, same_number, uses_by};

use cr_scopes::Names;
use cr_scopes_events::{Derivation, declared_by};
use cr_syntax::{Kind, Node};
use pass_levels::{behind_first, kind_at, parts_at};
use std::alloc::{AllocError, Global};

/// The part of a number.
pub fn part_at(parts: &[u32], at: usize) -> u32
    ensures { result ≡ part_at parts.now at }
{
    match parts.get(at) {
        Some(part) => *part,
        None => 0,
    }
}

/// The number of the entity in whose lists a token stands.
pub fn number_of(names: &Names, token: u32) -> Option<u32>
    ensures { result ≡ number_of names.now token }
{
    match names.of_token.as_slice().get(token as usize) {
        Some(number) => *number,
        None => None,
    }
}

fn uses_by(names: &Names, number: Option<u32>) -> &[u32]
    ensures { result.now ≡ uses_by names.now number }
{
    match number {
        Some(at) => match names.entities.as_slice().get(at as usize) {
            Some(entity) => entity.uses.as_slice(),
            None => &[],
        },
        None => &[],
    }
}

/// The tokens that use what a token names.
pub fn uses_of(names: &Names, token: u32) -> &[u32]
    ensures { result.now ≡ uses_by names.now (number_of names.now token) }
{
    uses_by(names, number_of(names, token))
}

/// Whether two numbers are there and the same.
pub fn same_number(number: Option<u32>, other: Option<u32>) -> bool
    ensures { result ≡ same_number number other }
{
    match number {
        None => false,
        Some(at) => match other {
            None => false,
            Some(other) => at == other,
        },
    }
}

/// Whether two tokens name the same.
pub fn name_same(names: &Names, token: u32, other: u32) -> bool
    ensures { result ≡ name_same names.now token other }
{
    same_number(number_of(names, token), number_of(names, other))
}

/// Whether a function's declarator is the next one.
pub fn is_next(function: u32, next: Derivation) -> bool
    ensures { result ≡ is_next function next }
{
    match next {
        Derivation::Function(node) => node == function,
        _ => false,
    }
}

fn names_same(names: &Names, token: u32, other: Option<u32>) -> bool
    ensures { result ≡ names_same names.now token other }
{
    match other {
        Some(other) => name_same(names, token, other),
        None => false,
    }
}

/// Whether a function's declarator declares what a token names.
pub fn declares_same(nodes: &[Node], names: &Names, token: u32, function: u32) -> bool
    ensures { result ≡ declares_same nodes.now names.now token function }
{
    let declarator = declared_by(nodes, function);
    is_next(function, declarator.next) && names_same(names, token, declarator.name)
}

// The node of the list of a function's declarator, which stands behind its name.
fn list_of(nodes: &[Node], function: u32) -> u32
    ensures { result ≡ part_at (node_at nodes.now function).parts 1 }
{
    part_at(parts_at(nodes, function as usize), 1)
}

/// The parameters of a function's declarator.
pub fn row_of(nodes: &[Node], function: u32) -> &[u32]
    ensures { result.now ≡ row_of nodes.now function }
{
    let list = list_of(nodes, function);
    match kind_at(nodes, list as usize) {
        Kind::VoidParameters => &[],
        Kind::Parameters | Kind::VariadicParameters => parts_at(nodes, list as usize),
        _ => behind_first(parts_at(nodes, function as usize)),
    }
}

/// How many parts the list has that commas separate.
pub fn count_of(nodes: &[Node], function: u32) -> usize
    ensures { result ≡ count_of nodes.now function }
{
    let count = row_of(nodes, function).len();
    match kind_at(nodes, list_of(nodes, function) as usize) {
        Kind::VariadicParameters => count.saturating_add(1),
        _ => count,
    }
}

/// The nodes of all calls. The error is want of memory.
pub fn calls_in(alloc: Global, nodes: &[Node]) -> Result<Vec<u32>, AllocError>
    ensures { IfOk result (λ calls. calls.items ≡ calls_in nodes.now) }
{
    let mut calls = Vec::new(alloc);
    for node in 0..nodes.len() {
        put_call(kind_at(nodes, node), node, &mut calls)?;
    }
    Ok(calls)
}

fn put_call(kind: Kind, node: usize, calls: &mut Vec<u32>) -> Result<(), AllocError>
    ensures { OnOk result (calls.new.items ≡ calls.old.items ++ calls_by kind node) }
{
    match kind {
        Kind::Call => calls.push(number(node)?)?,
        _ => {}
    }
    Ok(())
}

/// The nodes of all declarators of functions. The error is want of memory.
pub fn functions_in(alloc: Global, nodes: &[Node]) -> Result<Vec<u32>, AllocError>
    ensures { IfOk result (λ functions. functions.items ≡ functions_in nodes.now) }
{
    let mut functions = Vec::new(alloc);
    for node in 0..nodes.len() {
        put_function(kind_at(nodes, node), node, &mut functions)?;
    }
    Ok(functions)
}

fn put_function(kind: Kind, node: usize, functions: &mut Vec<u32>) -> Result<(), AllocError>
    ensures { OnOk result (functions.new.items ≡ functions.old.items ++ functions_by kind node) }
{
    match kind {
        Kind::FunctionDeclarator => functions.push(number(node)?)?,
        _ => {}
    }
    Ok(())
}

/// A number that a list keeps. The error is that it is 4,294,967,296 or more.
pub fn number(node: usize) -> Result<u32, AllocError>
    ensures { IfOk result (λ number. number ≡ node) }
{
    match u32::try_from(node) {
        Ok(number) => Ok(number),
        Err(_) => Err(AllocError),
    }
}
