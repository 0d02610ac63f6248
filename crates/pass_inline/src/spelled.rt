// What calls become, spelled anew.
ghost use Rattle.std.specs.Prelude.{◌≡◌, ◌++◌, map, IfOk, OnOk};
ghost use Rattle.std.specs.List.{position};
ghost use Rattle.pass_levels.specs.Nodes.{node_at};
ghost use Rattle.pass_params.specs.Functions.{part_at as part_by};
ghost use Rattle.pass_inline.specs.Spelled.{arguments_by, arguments_in, block_form, expression_form, form_of, forms_of, parameter_bits, parameter_number, run_of, token_bits, used_by};

use crate::callees::{Body, Callee, declared_number};
use cr_rows::Row;
use cr_scopes::Names;
use cr_syntax::{Kind, Node};
use pass_edit::{Bit, Run, Sign};
use pass_levels::{kind_at, parts_at, span_at};
use pass_params::{number, number_of, part_at, row_of, same_number};
use std::alloc::{AllocError, Global};

fn run_of(nodes: &[Node], node: u32) -> Result<Run, AllocError>
    ensures { IfOk result (λ run. run ≡ run_of (node_at nodes.now node)) }
{
    let (from, last) = span_at(nodes, node as usize);
    let to = last.checked_add(1).ok_or(AllocError)?;
    Ok(Run { from, to })
}

fn parameter_number(nodes: &[Node], names: &Names, parameter: u32) -> Option<u32>
    ensures { result ≡ parameter_number nodes.now names.now parameter }
{
    match kind_at(nodes, parameter as usize) {
        Kind::Parameter => {
            let declarator = part_at(parts_at(nodes, parameter as usize), 1);
            declared_number(nodes, names, declarator)
        }
        _ => None,
    }
}

fn parameter_numbers(
    alloc: Global,
    nodes: &[Node],
    names: &Names,
    parameters: &[u32],
) -> Result<Vec<Option<u32>>, AllocError>
    ensures { IfOk result (λ numbers. numbers.items ≡ map (parameter_number nodes.now names.now) parameters.now) }
{
    let mut numbers = Vec::new(alloc);
    for parameter in parameters {
        numbers.push(parameter_number(nodes, names, *parameter))?;
    }
    Ok(numbers)
}

// Which of these numbers' parameters a token uses.
fn used_by(names: &Names, numbers: &[Option<u32>], token: u32) -> Option<usize>
    ensures { result ≡ used_by names.now numbers.now token }
{
    let used = number_of(names, token);
    numbers.iter().position(|number| same_number(used, *number))
}

fn put_token(
    names: &Names,
    numbers: &[Option<u32>],
    at: usize,
    form: &mut Row<Bit>,
) -> Result<(), AllocError>
    ensures { OnOk result (form.new ≡ form.old ++ token_bits (used_by names.now numbers.now at) at) }
{
    let from = number(at)?;
    match used_by(names, numbers, from) {
        Some(parameter) => {
            form.push(Bit::Put(Sign::OpenParenthesis))?;
            form.push(Bit::Hole(number(parameter)?))?;
            form.push(Bit::Put(Sign::CloseParenthesis))
        }
        None => {
            let to = from.checked_add(1).ok_or(AllocError)?;
            form.push(Bit::Tokens(Run { from, to }))
        }
    }
}

fn expression_form(
    alloc: Global,
    names: &Names,
    numbers: &[Option<u32>],
    nodes: &[Node],
    expression: u32,
) -> Result<Row<Bit>, AllocError>
    ensures { IfOk result (λ form. form ≡ expression_form names.now numbers.now (node_at nodes.now expression)) }
{
    let (first, last) = span_at(nodes, expression as usize);
    let count = (last as usize + 1).saturating_sub(first as usize);
    let mut form = Row::new(alloc);
    for at in 0..count {
        put_token(names, numbers, first as usize + at, &mut form)?;
    }
    form.push(Bit::Put(Sign::CloseParenthesis))?;
    Ok(form)
}

fn put_parameter(
    nodes: &[Node],
    parameters: &[u32],
    at: usize,
    form: &mut Row<Bit>,
) -> Result<(), AllocError>
    ensures { OnOk result (form.new ≡ form.old ++ parameter_bits (node_at nodes.now (part_by parameters.now at)) at) }
{
    form.push(Bit::Tokens(run_of(nodes, part_at(parameters, at))?))?;
    form.push(Bit::Put(Sign::Equals))?;
    form.push(Bit::Hole(number(at)?))?;
    form.push(Bit::Put(Sign::Semicolon))
}

fn block_form(
    alloc: Global,
    nodes: &[Node],
    parameters: &[u32],
    body: u32,
) -> Result<Row<Bit>, AllocError>
    ensures { IfOk result (λ form. form ≡ block_form nodes.now parameters.now (node_at nodes.now body)) }
{
    let mut form = Row::new(alloc);
    for at in 0..parameters.len() {
        put_parameter(nodes, parameters, at, &mut form)?;
    }
    form.push(Bit::Tokens(run_of(nodes, body)?))?;
    form.push(Bit::Put(Sign::CloseBrace))?;
    Ok(form)
}

fn form_of(
    alloc: Global,
    nodes: &[Node],
    names: &Names,
    callee: Callee,
) -> Result<Row<Bit>, AllocError>
    ensures { IfOk result (λ form. form ≡ form_of nodes.now names.now callee) }
{
    let parameters = row_of(nodes, callee.function);
    match callee.body {
        Body::Returned(expression) => {
            let numbers = parameter_numbers(alloc, nodes, names, parameters)?;
            expression_form(alloc, names, numbers.as_slice(), nodes, expression)
        }
        Body::WithoutReturn => {
            let body = part_at(parts_at(nodes, callee.definition as usize), 2);
            block_form(alloc, nodes, parameters, body)
        }
        Body::Other => Ok(Row::new(alloc)),
    }
}

/// What a call of each function becomes behind its first sign. The error is want of memory.
pub fn forms_of(
    alloc: Global,
    nodes: &[Node],
    names: &Names,
    callees: &[Callee],
) -> Result<Row<Row<Bit>>, AllocError>
    ensures { IfOk result (λ forms. forms ≡ forms_of nodes.now names.now callees.now) }
{
    let mut forms = Row::new(alloc);
    for callee in callees {
        forms.push(form_of(alloc, nodes, names, *callee)?)?;
    }
    Ok(forms)
}

fn put_arguments(nodes: &[Node], parts: &[u32], runs: &mut Row<Run>) -> Result<(), AllocError>
    ensures { OnOk result (runs.new ≡ runs.old ++ map (λ part. run_of (node_at nodes.now part)) parts.now) }
{
    for part in parts {
        runs.push(run_of(nodes, *part)?)?;
    }
    Ok(())
}

fn arguments_at(alloc: Global, nodes: &[Node], node: usize) -> Result<Row<Run>, AllocError>
    ensures { IfOk result (λ runs. runs ≡ arguments_by (node_at nodes.now node).kind nodes.now (node_at nodes.now node).parts) }
{
    let mut runs = Row::new(alloc);
    match kind_at(nodes, node) {
        Kind::Call => put_arguments(nodes, parts_at(nodes, node), &mut runs)?,
        _ => {}
    }
    Ok(runs)
}

/// The arguments of each call, by the call's node. The error is want of memory.
pub fn arguments_in(alloc: Global, nodes: &[Node]) -> Result<Row<Row<Run>>, AllocError>
    ensures { IfOk result (λ runs. runs ≡ arguments_in nodes.now) }
{
    let mut runs = Row::new(alloc);
    for node in 0..nodes.len() {
        runs.push(arguments_at(alloc, nodes, node)?)?;
    }
    Ok(runs)
}
