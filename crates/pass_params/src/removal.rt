// Pass p: parameters.
ghost use Rattle.std.specs.Prelude.{◌≡◌, ◌++◌, Some, length, IfOk, OnOk};
ghost use Rattle.pass_levels.specs.Level.{level_of};
ghost use Rattle.pass_levels.specs.Nodes.{node_at};
ghost use Rattle.pass_levels.specs.Places.{with_comma as with_comma_by};
ghost use Rattle.cr_syntax.specs.declared.node.Kind.TheVariants.{FunctionDefinition};
ghost use Rattle.cr_scopes_events.specs.declared.declarator.Derivation.TheVariants.{Function};
ghost use Rattle.pass_params.specs.Functions.{calls_in as calls_list, functions_in as functions_list};
ghost use Rattle.pass_params.specs.Parameters.{changes_of, declarator_gives, definition_by, definitions_give, from_call, from_calls, from_declarator, from_declarators, from_list, from_row, function_gives, is_main, list_gives, named_gives, one_gives, p_offering, parameter_gives, parameter_goes, parameter_uses, row_gives, uses_if, zeros};

use crate::functions::{
    calls_in, count_of, declares_same, functions_in, name_same, number_of, part_at, row_of, uses_of,
};
use crate::grouped::{Known, calls_by, chosen, declarations_by};
use crate::ordered::in_order;
use cr_scopes::Names;
use cr_scopes_events::{Derivation, declared_by};
use cr_syntax::{Kind, Node, Unit};
use cr_tokens::Token;
use pass_edit::{Change, Edits, Kept, Menu, Text};
use pass_levels::{
    Counted, Level, kind_at, list, parts_at, replaced, span_at, spelling_at, with_comma,
};
use std::alloc::{AllocError, Global};

fn parameter_goes(tokens: &[Token], nodes: &[Node], at: usize, count: usize, node: u32) -> Change
    ensures { result ≡ parameter_goes tokens.now at count (node_at nodes.now node) }
{
    if count <= 1 {
        let (first, last) = span_at(nodes, node as usize);
        replaced(tokens, first as usize, last as usize, Text::Void)
    } else {
        part_goes(tokens, nodes, at, count, node)
    }
}

fn part_goes(tokens: &[Token], nodes: &[Node], at: usize, count: usize, node: u32) -> Change
    ensures { result ≡ with_comma_by tokens.now at count (node_at nodes.now node).first (node_at nodes.now node).last }
{
    let (first, last) = span_at(nodes, node as usize);
    with_comma(tokens, at, count, first as usize, last as usize)
}

fn put_from_list(
    tokens: &[Token],
    nodes: &[Node],
    at: usize,
    function: u32,
    changes: &mut Vec<Change>,
) -> Result<(), AllocError>
    ensures { OnOk result (changes.new.items ≡ changes.old.items ++ from_list tokens.now nodes.now at function) }
{
    let row = row_of(nodes, function);
    if at < row.len() {
        let count = count_of(nodes, function);
        changes.push(parameter_goes(tokens, nodes, at, count, part_at(row, at)))?;
    }
    Ok(())
}

fn put_from_declarator(
    tokens: &[Token],
    nodes: &[Node],
    names: &Names,
    token: u32,
    at: usize,
    function: u32,
    changes: &mut Vec<Change>,
) -> Result<(), AllocError>
    ensures { OnOk result (changes.new.items ≡ changes.old.items ++ from_declarator tokens.now nodes.now names.now token at function) }
{
    if declares_same(nodes, names, token, function) {
        put_from_list(tokens, nodes, at, function, changes)?;
    }
    Ok(())
}

fn put_from_declarators(
    tokens: &[Token],
    nodes: &[Node],
    names: &Names,
    token: u32,
    at: usize,
    functions: &[u32],
    changes: &mut Vec<Change>,
) -> Result<(), AllocError>
    ensures { OnOk result (changes.new.items ≡ changes.old.items ++ from_declarators tokens.now nodes.now names.now token at functions.now) }
{
    for function in functions {
        put_from_declarator(tokens, nodes, names, token, at, *function, changes)?;
    }
    Ok(())
}

fn put_from_row(
    tokens: &[Token],
    nodes: &[Node],
    at: usize,
    row: &[u32],
    changes: &mut Vec<Change>,
) -> Result<(), AllocError>
    ensures { OnOk result (changes.new.items ≡ changes.old.items ++ from_row tokens.now nodes.now at row.now) }
{
    if at < row.len() {
        changes.push(part_goes(tokens, nodes, at, row.len(), part_at(row, at)))?;
    }
    Ok(())
}

fn put_from_call(
    tokens: &[Token],
    nodes: &[Node],
    names: &Names,
    token: u32,
    at: usize,
    call: u32,
    changes: &mut Vec<Change>,
) -> Result<(), AllocError>
    ensures { OnOk result (changes.new.items ≡ changes.old.items ++ from_call tokens.now nodes.now names.now token at call) }
{
    let (first, _) = span_at(nodes, call as usize);
    if name_same(names, token, first) {
        let row = parts_at(nodes, call as usize);
        put_from_row(tokens, nodes, at, row, changes)?;
    }
    Ok(())
}

fn put_from_calls(
    tokens: &[Token],
    nodes: &[Node],
    names: &Names,
    token: u32,
    at: usize,
    calls: &[u32],
    changes: &mut Vec<Change>,
) -> Result<(), AllocError>
    ensures { OnOk result (changes.new.items ≡ changes.old.items ++ from_calls tokens.now nodes.now names.now token at calls.now) }
{
    for call in calls {
        put_from_call(tokens, nodes, names, token, at, *call, changes)?;
    }
    Ok(())
}

fn uses_if(names: &Names, token: Option<u32>) -> &[u32]
    ensures { result.now ≡ uses_if names.now token }
{
    match token {
        Some(token) => uses_of(names, token),
        None => &[],
    }
}

fn parameter_uses<'a>(nodes: &[Node], names: &'a Names, parameter: u32) -> &'a [u32]
    ensures { result.now ≡ parameter_uses nodes.now names.now parameter }
{
    match kind_at(nodes, parameter as usize) {
        Kind::Parameter => {
            let declarator = part_at(parts_at(nodes, parameter as usize), 1);
            uses_if(names, declared_by(nodes, declarator).name)
        }
        _ => &[],
    }
}

fn put_zeros(tokens: &[Token], uses: &[u32], changes: &mut Vec<Change>) -> Result<(), AllocError>
    ensures { OnOk result (changes.new.items ≡ changes.old.items ++ zeros tokens.now uses.now) }
{
    for used in uses {
        let at = *used as usize;
        changes.push(replaced(tokens, at, at, Text::Zero))?;
    }
    Ok(())
}

fn changes_of(
    alloc: Global,
    level: &ParametersGo,
    token: u32,
    at: usize,
    parameter: u32,
) -> Result<Vec<Change>, AllocError>
    ensures { IfOk result (λ changes. changes.items ≡ changes_of level.now.tokens.now level.now.known.now.nodes.now level.now.known.now.names.now level.now.known.now.functions.now level.now.known.now.calls.now token at parameter) }
{
    let mut changes = Vec::new(alloc);
    let (tokens, nodes, names) = (level.tokens, level.known.nodes, level.known.names);
    let number = number_of(names, token);
    let declarations = chosen(level.known.declarations, number, level.known.functions);
    put_from_declarators(tokens, nodes, names, token, at, declarations, &mut changes)?;
    let called = chosen(level.known.called, number, level.known.calls);
    put_from_calls(tokens, nodes, names, token, at, called, &mut changes)?;
    put_zeros(
        tokens,
        parameter_uses(nodes, names, parameter),
        &mut changes,
    )?;
    Ok(changes)
}

// Each parameter of a defined function goes.
#[derive(Drop)]
struct ParametersGo<'a> {
    file: &'a [u8],
    tokens: &'a [Token],
    known: &'a Known<'a>,
}

impl Level for ParametersGo<'_> {
    ghost gives = { λ l k. definitions_give l.file.now l.tokens.now l.known.now.nodes.now l.known.now.names.now l.known.now.functions.now l.known.now.calls.now k };

    fn give(&self, alloc: Global, node: usize, all: &mut Vec<Counted>) -> Result<(), AllocError> {
        match kind_at(self.known.nodes, node) {
            Kind::FunctionDefinition => {
                put_definition(
                    alloc,
                    self,
                    part_at(parts_at(self.known.nodes, node), 1),
                    all,
                )
            }
            _ => Ok(()),
        }
    }
}

fn put_definition(
    alloc: Global,
    level: &ParametersGo,
    declarator: u32,
    all: &mut Vec<Counted>,
) -> Result<(), AllocError>
    ensures { OnOk result (all.new.items ≡ all.old.items ++ declarator_gives level.now declarator) }
{
    let declared = declared_by(level.known.nodes, declarator);
    match (declared.next, declared.name) {
        (Derivation::Function(function), Some(token)) => {
            put_function(alloc, level, token, function, all)
        }
        _ => Ok(()),
    }
}

fn put_function(
    alloc: Global,
    level: &ParametersGo,
    token: u32,
    function: u32,
    all: &mut Vec<Counted>,
) -> Result<(), AllocError>
    ensures { OnOk result (all.new.items ≡ all.old.items ++ function_gives level.now token function) }
{
    if is_main(spelling_at(level.file, level.tokens, token as usize)) {
        return Ok(());
    }
    put_row(
        alloc,
        level,
        token,
        row_of(level.known.nodes, function),
        all,
    )
}

fn is_main(text: &[u8]) -> bool
    ensures { result ≡ is_main text.now }
{
    text == b"main".as_slice()
}

fn put_row(
    alloc: Global,
    level: &ParametersGo,
    token: u32,
    row: &[u32],
    all: &mut Vec<Counted>,
) -> Result<(), AllocError>
    ensures { OnOk result (all.new.items ≡ all.old.items ++ list_gives level.now token row.now) }
{
    for at in 0..row.len() {
        put_parameter(alloc, level, token, row, at, all)?;
    }
    Ok(())
}

fn put_parameter(
    alloc: Global,
    level: &ParametersGo,
    token: u32,
    row: &[u32],
    at: usize,
    all: &mut Vec<Counted>,
) -> Result<(), AllocError>
    ensures { OnOk result (all.new.items ≡ all.old.items ++ one_gives level.now token row.now at) }
{
    let parameter = part_at(row, at);
    let (first, last) = span_at(level.known.nodes, parameter as usize);
    let changes = changes_of(alloc, level, token, at, parameter)?;
    let edit = in_order(alloc, changes.as_slice())?;
    all.push(Counted { first, last, edit })?;
    Ok(())
}

fn level(
    alloc: Global,
    file: &[u8],
    tokens: &[Token],
    nodes: &[Node],
    names: &Names,
) -> Result<Edits, AllocError>
    ensures { IfOk result (λ edits. edits ≡ level_of (definitions_give file.now tokens.now nodes.now names.now (functions_list nodes.now) (calls_list nodes.now)) (length nodes.now)) }
{
    let functions = functions_in(alloc, nodes)?;
    let calls = calls_in(alloc, nodes)?;
    let declarations = declarations_by(alloc, nodes, names, functions.as_slice())?;
    let called = calls_by(alloc, nodes, names, calls.as_slice())?;
    let known = Known {
        nodes,
        names,
        functions: functions.as_slice(),
        calls: calls.as_slice(),
        declarations: declarations.as_slice(),
        called: called.as_slice(),
    };
    let level = ParametersGo {
        file,
        tokens,
        known: &known,
    };
    list(alloc, nodes.len(), &level)
}

/// What pass p offers for a file's unit with these names: each parameter of a defined function, other than main's, goes with its comma from
/// each declaration of the function, where a list left empty becomes `void`; its argument goes with its comma from each call; and its uses
/// become `0`. The error is want of memory.
pub fn parameters(
    alloc: Global,
    file: &[u8],
    unit: &Unit,
    names: &Names,
) -> Result<Menu, AllocError>
    ensures { IfOk result (λ menu. menu ≡ p_offering file.now unit.now.tokens.list.items unit.now.nodes names.now) }
{
    let tokens = unit.tokens.list.as_slice();
    let nodes = unit.nodes.as_slice();
    menu(alloc, file, tokens, nodes, names)
}

fn menu(
    alloc: Global,
    file: &[u8],
    tokens: &[Token],
    nodes: &[Node],
    names: &Names,
) -> Result<Menu, AllocError>
    ensures { IfOk result (λ menu. menu ≡ p_offering file.now tokens.now nodes.now names.now) }
{
    let mut levels = Vec::new(alloc);
    levels.push(level(alloc, file, tokens, nodes, names)?)?;
    Ok(Menu::new(levels, Kept::nothing(alloc)))
}
