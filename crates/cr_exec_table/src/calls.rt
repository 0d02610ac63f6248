ghost use Rattle.std.specs.Prelude.{◌≡◌, map, IfOk, [], slice_get, slice_index_or};
ghost use Rattle.cr_check_types.specs.Types.{type_at};
ghost use Rattle.cr_meaning_operations.specs.Shapes.{value_type, named_type};
ghost use Rattle.cr_exec_table.specs.Roles.{is_plain_char};
ghost use Rattle.cr_meaning_operations.specs.Operations.{spelling_if, first_at, is_text, function_in, parameter_of, function_of, callee_of};

use crate::blocks::rest;
use crate::nodes::Nodes;
use cr_exec_shapes::Types;
use cr_ints::IntKind;
use cr_meaning::{Callee, Parameter};
use cr_rows::Row;
use cr_syntax::CType;
use std::alloc::{AllocError, Global};

/// What a call calls: a function of the library by its name, else the definition (C11 6.5.2.2).
pub(crate) fn callee(alloc: Global, nodes: &Nodes, node: u32) -> Result<Callee, AllocError>
    ensures { IfOk result (λ callee. callee ≡ callee_of nodes.now node) }
{
    let types = nodes.types();
    let name = spelling(types, node);
    if name == b"printf".as_slice() {
        Ok(Callee::Printf(texts(alloc, types, rest(types.parts(node)))?))
    } else if name == b"putchar".as_slice() {
        Ok(Callee::Putchar)
    } else if name == b"exit".as_slice() {
        Ok(Callee::Exit)
    } else if name == b"abort".as_slice() {
        Ok(Callee::Abort)
    } else {
        function(alloc, types, function_in(types, nodes.entity(node)))
    }
}

// The bytes of a node's first token.
fn spelling<'a>(types: &Types<'a>, node: u32) -> &'a [u8]
    ensures { result.now ≡ spelling_if types.now.file (slice_get types.now.tokens (first_at types.now node)) }
{
    let typed = types.typed();
    match typed.tokens.as_slice().get(types.first(node) as usize) {
        Some(token) => token.spelling(typed.file.as_slice()),
        None => &[],
    }
}

// Which arguments are pointers to char.
fn texts(alloc: Global, types: &Types, arguments: &[u32]) -> Result<Row<bool>, AllocError>
    ensures { IfOk result (λ row. row ≡ map (λ part. is_text (value_type types.now part)) arguments.now) }
{
    let mut texts = Vec::new(alloc);
    for argument in arguments {
        texts.push(is_text(types, *argument))?;
    }
    Ok(Row::from_vec(texts))
}

// A pointer to char, also to a const one; a volatile one isn't what `%s` may read (6.7.3p6).
fn is_text(types: &Types, node: u32) -> bool
    ensures { result ≡ is_text (value_type types.now node) }
{
    match types.value(node).of {
        CType::Pointer(below) => is_plain_char(types, below),
        _ => false,
    }
}

fn is_plain_char(types: &Types, row: u32) -> bool
    ensures { result ≡ is_plain_char (type_at types.now.shapes row) }
{
    let shape = types.shape(row);
    match shape.of {
        CType::Int(IntKind::Char) => !shape.volatile,
        _ => false,
    }
}

// The definition of the function that a name declares.
fn function_in(types: &Types, declared: u32) -> u32
    ensures { result ≡ function_in (named_type types.now declared) }
{
    match types.shape(types.named_row(declared)).of {
        CType::Function(node) => node,
        _ => 0,
    }
}

fn function(alloc: Global, types: &Types, definition: u32) -> Result<Callee, AllocError>
    ensures { IfOk result (λ callee. callee ≡ function_of types.now definition) }
{
    let parameters = parameters(alloc, types, definition)?;
    let body = types.part(definition, 2);
    Ok(Callee::Function(parameters, body, definition == types.typed().main))
}

/// The parameters of a function, each with the form of its type.
pub(crate) fn parameters(
    alloc: Global,
    types: &Types,
    definition: u32,
) -> Result<Row<Parameter>, AllocError>
    ensures { IfOk result (λ row. row ≡ map (parameter_of types.now) (slice_index_or types.now.parameters definition [])) }
{
    let mut parameters = Vec::new(alloc);
    for name in names(types, definition) {
        parameters.push(parameter(types, *name))?;
    }
    Ok(Row::from_vec(parameters))
}

fn parameter(types: &Types, node: u32) -> Parameter
    ensures { result ≡ parameter_of types.now node }
{
    Parameter {
        node,
        form: types.form(types.named_row(node)),
    }
}

/// The nodes that declare the parameters of a function.
pub(crate) fn names<'a>(types: &Types<'a>, definition: u32) -> &'a [u32]
    ensures { result.now ≡ slice_index_or types.now.parameters definition [] }
{
    match types.typed().parameters.as_slice().get(definition as usize) {
        Some(names) => names.as_slice(),
        None => &[],
    }
}
