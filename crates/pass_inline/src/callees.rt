// Functions that are defined, and the declarations of names.
ghost use Rattle.std.specs.Prelude.{◌≡◌, ◌++◌, map, IfOk, OnOk};
ghost use Rattle.std.specs.List.{list_any};
ghost use Rattle.cr_syntax.specs.declared.node.Kind.TheVariants.{FunctionDefinition};
ghost use Rattle.pass_levels.specs.Nodes.{node_at};
ghost use Rattle.pass_inline.specs.Callees.{body_by as body_from, body_of, callee_by, callees_in, declared_by as declared_from, declared_in, declared_number, is_within as is_within_by, number_if, returned_by, returned_in, returns_by, returns_in};

use cr_rows::Row;
use cr_scopes::Names;
use cr_scopes_events::{Derivation, declared_by};
use cr_syntax::{Kind, Node};
use pass_levels::{behind_first, kind_at, parts_at, span_at};
use pass_params::{number, number_of, part_at};
use std::alloc::{AllocError, Global};

/// What the body of a function is.
#[derive(Clone, Copy, Drop)]
pub enum Body {
    /// One item, which returns the expression of this node.
    Returned(u32),
    /// No return statement stands in the definition.
    WithoutReturn,
    Other,
}

/// A function that is defined.
#[derive(Clone, Copy, Drop)]
pub struct Callee {
    /// The node of its definition.
    pub definition: u32,
    /// The node of the declarator that has its parameters.
    pub function: u32,
    /// The number of its entity.
    pub number: Option<u32>,
    pub body: Body,
}

/// A declaration, and for each of its declarators the number of the entity that it declares.
#[derive(Drop)]
pub struct Declared {
    pub declaration: u32,
    pub numbers: Row<Option<u32>>,
}

/// The number of the entity that a declarator declares.
pub fn declared_number(nodes: &[Node], names: &Names, declarator: u32) -> Option<u32>
    ensures { result ≡ declared_number nodes.now names.now declarator }
{
    number_if(names, declared_by(nodes, declarator).name)
}

fn number_if(names: &Names, token: Option<u32>) -> Option<u32>
    ensures { result ≡ number_if names.now token }
{
    match token {
        Some(token) => number_of(names, token),
        None => None,
    }
}

/// Whether a token stands from one to another.
pub fn is_within(first: u32, last: u32, token: u32) -> bool
    ensures { result ≡ is_within_by first last token }
{
    first <= token && token <= last
}

// The first tokens of all return statements.
fn returns_in(alloc: Global, nodes: &[Node]) -> Result<Vec<u32>, AllocError>
    ensures { IfOk result (λ returns. returns.items ≡ returns_in nodes.now) }
{
    let mut returns = Vec::new(alloc);
    for node in 0..nodes.len() {
        let (first, _) = span_at(nodes, node);
        put_return(kind_at(nodes, node), first, &mut returns)?;
    }
    Ok(returns)
}

fn put_return(kind: Kind, first: u32, returns: &mut Vec<u32>) -> Result<(), AllocError>
    ensures { OnOk result (returns.new.items ≡ returns.old.items ++ returns_by kind first) }
{
    match kind {
        Kind::Return => returns.push(first)?,
        _ => {}
    }
    Ok(())
}

// The expression that a body's one item returns.
fn returned_in(nodes: &[Node], items: &[u32]) -> Option<u32>
    ensures { result ≡ returned_in nodes.now items.now }
{
    match items {
        [item] => returned_by(
            kind_at(nodes, *item as usize),
            parts_at(nodes, *item as usize),
        ),
        _ => None,
    }
}

fn returned_by(kind: Kind, parts: &[u32]) -> Option<u32>
    ensures { result ≡ returned_by kind parts.now }
{
    match kind {
        Kind::Return => parts.first().copied(),
        _ => None,
    }
}

fn body_of(nodes: &[Node], returns: &[u32], definition: usize) -> Body
    ensures { result ≡ body_of nodes.now returns.now (node_at nodes.now definition) }
{
    let body = part_at(parts_at(nodes, definition), 2);
    let returned = returned_in(nodes, parts_at(nodes, body as usize));
    let (first, last) = span_at(nodes, definition);
    body_by(returned, has_within(first, last, returns))
}

fn has_within(first: u32, last: u32, tokens: &[u32]) -> bool
    ensures { result ≡ list_any (is_within_by first last) tokens.now }
{
    tokens.iter().any(|token| is_within(first, last, *token))
}

fn body_by(returned: Option<u32>, returns: bool) -> Body
    ensures { result ≡ body_from returned returns }
{
    match (returned, returns) {
        (Some(expression), _) => Body::Returned(expression),
        (None, false) => Body::WithoutReturn,
        (None, true) => Body::Other,
    }
}

/// All functions that are defined, in the order of their definitions. The error is want of memory.
pub fn callees_in(alloc: Global, nodes: &[Node], names: &Names) -> Result<Vec<Callee>, AllocError>
    ensures { IfOk result (λ callees. callees.items ≡ callees_in nodes.now names.now) }
{
    let returns = returns_in(alloc, nodes)?;
    let mut callees = Vec::new(alloc);
    for node in 0..nodes.len() {
        put_callee(nodes, names, returns.as_slice(), node, &mut callees)?;
    }
    Ok(callees)
}

fn put_callee(
    nodes: &[Node],
    names: &Names,
    returns: &[u32],
    node: usize,
    callees: &mut Vec<Callee>,
) -> Result<(), AllocError>
    ensures { OnOk result (callees.new.items ≡ callees.old.items ++ callee_by (node_at nodes.now node).kind nodes.now names.now returns.now node) }
{
    match kind_at(nodes, node) {
        Kind::FunctionDefinition => put_definition(nodes, names, returns, node, callees),
        _ => Ok(()),
    }
}

fn put_definition(
    nodes: &[Node],
    names: &Names,
    returns: &[u32],
    node: usize,
    callees: &mut Vec<Callee>,
) -> Result<(), AllocError>
    ensures { OnOk result (callees.new.items ≡ callees.old.items ++ callee_by FunctionDefinition nodes.now names.now returns.now node) }
{
    let declarator = part_at(parts_at(nodes, node), 1);
    match declared_by(nodes, declarator).next {
        Derivation::Function(function) => callees.push(Callee {
            definition: number(node)?,
            function,
            number: declared_number(nodes, names, declarator),
            body: body_of(nodes, returns, node),
        })?,
        _ => {}
    }
    Ok(())
}

/// All declarations. The error is want of memory.
pub fn declared_in(
    alloc: Global,
    nodes: &[Node],
    names: &Names,
) -> Result<Vec<Declared>, AllocError>
    ensures { IfOk result (λ declared. declared.items ≡ declared_in nodes.now names.now) }
{
    let mut declared = Vec::new(alloc);
    for node in 0..nodes.len() {
        put_declared(alloc, nodes, names, node, &mut declared)?;
    }
    Ok(declared)
}

fn put_declared(
    alloc: Global,
    nodes: &[Node],
    names: &Names,
    node: usize,
    declared: &mut Vec<Declared>,
) -> Result<(), AllocError>
    ensures { OnOk result (declared.new.items ≡ declared.old.items ++ declared_from (node_at nodes.now node).kind nodes.now names.now node) }
{
    match kind_at(nodes, node) {
        Kind::Declaration => {
            let declaration = number(node)?;
            let numbers = numbers_of(alloc, nodes, names, behind_first(parts_at(nodes, node)))?;
            declared.push(Declared {
                declaration,
                numbers,
            })?;
        }
        _ => {}
    }
    Ok(())
}

fn numbers_of(
    alloc: Global,
    nodes: &[Node],
    names: &Names,
    declarators: &[u32],
) -> Result<Row<Option<u32>>, AllocError>
    ensures { IfOk result (λ numbers. numbers ≡ map (declared_number nodes.now names.now) declarators.now) }
{
    let mut numbers = Row::new(alloc);
    for declarator in declarators {
        numbers.push(declared_number(nodes, names, *declarator))?;
    }
    Ok(numbers)
}
