// The functions that a unit defines.
ghost use Rattle.std.specs.Prelude.{◌≡◌, ◌++◌, ◌<◌, ℕ, [], ◌∷◌, Some, None, IfOk, OnOk, length, option_to_list, if◌then◌else◌};
ghost use Rattle.std.specs.List.{flat_map};
ghost use Rattle.cr_syntax.specs.Words.{AreSpans};
ghost use Rattle.cr_typed_columns.specs.Reading.{parsed_of};
ghost use Rattle.cr_typed_columns.specs.Entities.{AreFound};
ghost use Rattle.cr_typed_columns.specs.Rows.{listed};
ghost use Rattle.cr_typed_columns.specs.Functions.{listed_by, parameter_nodes as parameter_nodes_lem, parameter_name as parameter_name_lem, function_of as function_of_lem, parameters_of as parameters_of_lem, is_spelled_main, is_main as is_main_lem, main_below, main_of as main_of_lem};

use crate::checked::CheckedColumns;
use crate::lasts::{Found, declared_token, is_definition, name_node};
use crate::reading::{entry, kind_of, part_at, part_of};
use cr_check_declarators::BARE;
use cr_rows::Row;
use cr_syntax::{Kind, Node, Unit, kind_at, parts_at, spelling_at};
use cr_tokens::Token;
use std::alloc::{AllocError, Global};

// ---- parameters

fn parameter_name(
    unit: &Unit,
    checked: &CheckedColumns,
    found: &Found,
    parameter: u32,
) -> Option<u32>
    requires { AreFound (parsed_of unit.now) checked.now found.now }
    ensures { result ≡ parameter_name_lem (parsed_of unit.now) parameter }
{
    let nodes = unit.nodes.as_slice();
    let token = declared_token(nodes, part_at(nodes, parameter as usize, 1));
    name_node(unit, checked, found, token)
}

// One parameter more, where it has a name.
fn put(names: &mut Vec<u32>, name: Option<u32>) -> Result<(), AllocError>
    ensures { OnOk result (names.new.items ≡ names.old.items ++ option_to_list name) }
{
    match name {
        Some(name) => {
            names.push(name)?;
            Ok(())
        }
        None => Ok(()),
    }
}

fn names_of(
    alloc: Global,
    unit: &Unit,
    checked: &CheckedColumns,
    found: &Found,
    list: &[u32],
) -> Result<Vec<u32>, AllocError>
    requires { AreFound (parsed_of unit.now) checked.now found.now }
    ensures { IfOk result (λ names. names.items ≡ flat_map (λ p. option_to_list (parameter_name_lem (parsed_of unit.now) p)) list.now) }
{
    let mut names = Vec::new(alloc);
    for parameter in list {
        put(&mut names, parameter_name(unit, checked, found, *parameter))?;
    }
    Ok(names)
}

/// The function declarator next to the name of a definition.
pub(crate) fn function_of(
    nodes: &[Node],
    checked: &CheckedColumns,
    definition: usize,
) -> Option<u32>
    ensures { result ≡ function_of_lem nodes.now checked.now definition }
{
    entry(checked.declarators, BARE, part_at(nodes, definition, 1)).function
}

// The parameters of a definition.
fn parameters_of(
    alloc: Global,
    unit: &Unit,
    checked: &CheckedColumns,
    found: &Found,
    at: usize,
) -> Result<Row<u32>, AllocError>
    requires { AreFound (parsed_of unit.now) checked.now found.now }
    ensures { IfOk result (λ names. names ≡ parameters_of_lem (parsed_of unit.now) checked.now at) }
{
    let nodes = unit.nodes.as_slice();
    if !is_definition(kind_at(nodes, at)) {
        return Ok(Row::new(alloc));
    }
    let names = match part_of(nodes, function_of(nodes, checked, at), 1) {
        Some(list) => names_in(alloc, unit, checked, found, list)?,
        None => Vec::new(alloc),
    };
    Ok(Row::from_vec(names))
}

// The parameters of a list, which is a lone parameter itself where it is no such list.
fn names_in(
    alloc: Global,
    unit: &Unit,
    checked: &CheckedColumns,
    found: &Found,
    list: u32,
) -> Result<Vec<u32>, AllocError>
    requires { AreFound (parsed_of unit.now) checked.now found.now }
    ensures { IfOk result (λ names. names.items ≡ flat_map (λ p. option_to_list (parameter_name_lem (parsed_of unit.now) p)) (parameter_nodes_lem unit.now.nodes (Some list))) }
{
    let nodes = unit.nodes.as_slice();
    match kind_at(nodes, list as usize) {
        Some(Kind::VoidParameters) => Ok(Vec::new(alloc)),
        Some(Kind::Parameters | Kind::VariadicParameters) => {
            names_of(alloc, unit, checked, found, parts_at(nodes, list as usize))
        }
        _ => names_of(alloc, unit, checked, found, &[list]),
    }
}

/// The parameters of each function definition, by the nodes that declare their names.
#[tactic(auto, using(crate::proofs::Listed::one_more))]
pub(crate) fn parameters(
    alloc: Global,
    unit: &Unit,
    checked: &CheckedColumns,
    found: &Found,
) -> Result<Row<Row<u32>>, AllocError>
    requires { AreFound (parsed_of unit.now) checked.now found.now }
    ensures { IfOk result (λ parameters. parameters ≡ listed (parameters_of_lem (parsed_of unit.now) checked.now) (length unit.now.nodes)) }
{
    let mut parameters = Row::new(alloc);
    for at in 0..unit.nodes.len() {
        parameters.push(parameters_of(alloc, unit, checked, found, at)?)?;
    }
    Ok(parameters)
}

// ---- main

fn is_spelled_main(file: &[u8], tokens: &[Token], token: Option<u32>) -> bool
    requires { AreSpans file.now tokens.now }
    ensures { result ≡ is_spelled_main file.now tokens.now token }
{
    match token {
        Some(token) => spelling_at(file, tokens, token as usize) == b"main".as_slice(),
        None => false,
    }
}

fn is_main(file: &[u8], unit: &Unit, at: usize) -> bool
    requires { AreSpans file.now unit.now.tokens.list.items }
    ensures { result ≡ is_main_lem file.now (parsed_of unit.now) at }
{
    let nodes = unit.nodes.as_slice();
    let tokens = unit.tokens.list.as_slice();
    is_definition(kind_at(nodes, at))
        && is_spelled_main(file, tokens, declared_token(nodes, part_at(nodes, at, 1)))
}

/// The definition of `main`.
pub(crate) fn main_of(file: &[u8], unit: &Unit) -> Result<u32, AllocError>
    requires { AreSpans file.now unit.now.tokens.list.items }
    ensures { IfOk result (λ node. node ≡ main_of_lem file.now (parsed_of unit.now)) }
{
    let mut main = 0;
    for at in 0..unit.nodes.len() {
        if is_main(file, unit, at) {
            main = u32::try_from(at).map_err(|_| AllocError)?;
        }
    }
    Ok(main)
}
