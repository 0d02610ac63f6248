// What declarators declare, where it is used, and how a declarator and a value go.
ghost use Rattle.std.specs.Prelude.{◌≡◌, ◌++◌, ◌∷◌, [], drop, length, IfOk, OnOk};
ghost use Rattle.cr_syntax.specs.declared.node.Kind.TheVariants.{InitDeclarator};
ghost use Rattle.pass_levels.specs.Gathered.{gathered};
ghost use Rattle.pass_levels.specs.Nodes.{node_at};
ghost use Rattle.pass_values.specs.Declarators.{comes_to, declarator_goes, declared_number, declared_uses, expression_if, form, initial_by, initial_of, is_initialised, kept_by, named_in, number_if, plain_at, plains_from, plains_in, run_of, runs_in};

use cr_rows::Row;
use cr_scopes::Names;
use cr_scopes_events::declared_by;
use cr_syntax::{Kind, Node};
use cr_tokens::Token;
use pass_edit::{Bit, Change, Kept, Run, Sign, Text};
use pass_levels::{behind_first, gone, kind_at, parts_at, replaced, span_at, with_comma};
use pass_params::{number, number_of, part_at, uses_of};
use std::alloc::{AllocError, Global};

/// A declarator without initialiser.
#[derive(Clone, Copy, Drop)]
pub struct Plain {
    /// The node of its declaration.
    pub declaration: u32,
    /// Its number among the declarators there.
    pub at: u32,
    /// The number of the entity that it declares.
    pub number: Option<u32>,
}

fn number_if(names: &Names, token: Option<u32>) -> Option<u32>
    ensures { result ≡ number_if names.now token }
{
    match token {
        Some(token) => number_of(names, token),
        None => None,
    }
}

fn declared_number(nodes: &[Node], names: &Names, declarator: u32) -> Option<u32>
    ensures { result ≡ declared_number nodes.now names.now declarator }
{
    number_if(names, declared_by(nodes, declarator).name)
}

/// The tokens that use what a declarator declares.
pub fn declared_uses<'a>(nodes: &[Node], names: &'a Names, declarator: u32) -> &'a [u32]
    ensures { result.now ≡ declared_uses nodes.now names.now declarator }
{
    match declared_by(nodes, declarator).name {
        Some(token) => uses_of(names, token),
        None => &[],
    }
}

fn expression_if(kind: Kind, part: u32) -> Option<u32>
    ensures { result ≡ expression_if kind part }
{
    match kind {
        Kind::InitializerList => None,
        _ => Some(part),
    }
}

fn initialiser_in(nodes: &[Node], parts: &[u32]) -> Option<u32>
    ensures { result ≡ initial_by InitDeclarator nodes.now parts.now }
{
    let part = part_at(parts, 1);
    expression_if(kind_at(nodes, part as usize), part)
}

/// The expression by which a declarator is initialised.
pub fn initial_of(nodes: &[Node], part: u32) -> Option<u32>
    ensures { result ≡ initial_of nodes.now part }
{
    match kind_at(nodes, part as usize) {
        Kind::InitDeclarator => initialiser_in(nodes, parts_at(nodes, part as usize)),
        _ => None,
    }
}

/// The declarators of a declaration.
pub fn row_at(nodes: &[Node], declaration: usize) -> &[u32]
    ensures { result.now ≡ drop 1 (node_at nodes.now declaration).parts }
{
    behind_first(parts_at(nodes, declaration))
}

/// The declarator that is initialised.
pub fn named_in(nodes: &[Node], part: u32) -> u32
    ensures { result ≡ named_in nodes.now part }
{
    part_at(parts_at(nodes, part as usize), 0)
}

fn is_initialised(kind: Kind) -> bool
    ensures { result ≡ is_initialised kind }
{
    match kind {
        Kind::InitDeclarator => true,
        _ => false,
    }
}

fn put_plain(
    nodes: &[Node],
    names: &Names,
    declaration: usize,
    row: &[u32],
    at: usize,
    plains: &mut Vec<Plain>,
) -> Result<(), AllocError>
    ensures { OnOk result (plains.new.items ≡ plains.old.items ++ plain_at nodes.now names.now declaration row.now at) }
{
    let part = part_at(row, at);
    if !is_initialised(kind_at(nodes, part as usize)) {
        let declared = declared_number(nodes, names, part);
        plains.push(Plain {
            declaration: number(declaration)?,
            at: number(at)?,
            number: declared,
        })?;
    }
    Ok(())
}

fn put_row(
    nodes: &[Node],
    names: &Names,
    declaration: usize,
    row: &[u32],
    plains: &mut Vec<Plain>,
) -> Result<(), AllocError>
    ensures { OnOk result (plains.new.items ≡ plains.old.items ++ gathered (plain_at nodes.now names.now declaration row.now) (length row.now)) }
{
    for at in 0..row.len() {
        put_plain(nodes, names, declaration, row, at, plains)?;
    }
    Ok(())
}

fn put_plains(
    nodes: &[Node],
    names: &Names,
    node: usize,
    plains: &mut Vec<Plain>,
) -> Result<(), AllocError>
    ensures { OnOk result (plains.new.items ≡ plains.old.items ++ plains_from nodes.now names.now node) }
{
    match kind_at(nodes, node) {
        Kind::Declaration => { put_row(nodes, names, node, row_at(nodes, node), plains) }
        _ => Ok(()),
    }
}

/// All declarators without initialiser. The error is want of memory.
pub fn plains_in(alloc: Global, nodes: &[Node], names: &Names) -> Result<Vec<Plain>, AllocError>
    ensures { IfOk result (λ plains. plains.items ≡ plains_in nodes.now names.now) }
{
    let mut plains = Vec::new(alloc);
    for node in 0..nodes.len() {
        put_plains(nodes, names, node, &mut plains)?;
    }
    Ok(plains)
}

/// A declarator among others goes with its comma, and one that is alone with its declaration.
pub fn declarator_goes(
    tokens: &[Token],
    nodes: &[Node],
    declaration: usize,
    at: usize,
    count: usize,
    declarator: usize,
) -> Change
    ensures { result ≡ declarator_goes tokens.now (node_at nodes.now declaration) at count (node_at nodes.now declarator) }
{
    if count <= 1 {
        let (first, last) = span_at(nodes, declaration);
        gone(tokens, first as usize, last as usize)
    } else {
        let (first, last) = span_at(nodes, declarator);
        with_comma(tokens, at, count, first as usize, last as usize)
    }
}

/// An expression comes in brackets in the place of a token.
pub fn comes_to(tokens: &[Token], token: u32, expression: u32) -> Change
    ensures { result ≡ comes_to tokens.now token expression }
{
    let text = Text::Filled(Sign::OpenParenthesis, 0, expression);
    replaced(tokens, token as usize, token as usize, text)
}

fn run_of(nodes: &[Node], node: usize) -> Result<Run, AllocError>
    ensures { IfOk result (λ run. run ≡ run_of (node_at nodes.now node)) }
{
    let (from, last) = span_at(nodes, node);
    let to = last.checked_add(1).ok_or(AllocError)?;
    Ok(Run { from, to })
}

fn one_run(alloc: Global, nodes: &[Node], node: usize) -> Result<Row<Run>, AllocError>
    ensures { IfOk result (λ runs. runs ≡ run_of (node_at nodes.now node) ∷ []) }
{
    let mut runs = Row::new(alloc);
    runs.push(run_of(nodes, node)?)?;
    Ok(runs)
}

fn runs_in(alloc: Global, nodes: &[Node]) -> Result<Row<Row<Run>>, AllocError>
    ensures { IfOk result (λ runs. runs ≡ runs_in nodes.now) }
{
    let mut runs = Row::new(alloc);
    for node in 0..nodes.len() {
        runs.push(one_run(alloc, nodes, node)?)?;
    }
    Ok(runs)
}

// A hole, and a bracket behind it.
fn form(alloc: Global) -> Result<Row<Bit>, AllocError>
    ensures { IfOk result (λ bits. bits ≡ form) }
{
    let mut bits = Row::new(alloc);
    bits.push(Bit::Hole(0))?;
    bits.push(Bit::Put(Sign::CloseParenthesis))?;
    Ok(bits)
}

/// What the texts of a value's edit name. The error is want of memory.
pub fn kept(alloc: Global, tokens: &[Token], nodes: &[Node]) -> Result<Kept, AllocError>
    ensures { IfOk result (λ kept. kept ≡ kept_by tokens.now nodes.now) }
{
    let mut copied = Vec::new(alloc);
    copied.extend_from_slice(tokens)?;
    let mut forms = Row::new(alloc);
    forms.push(form(alloc)?)?;
    Ok(Kept {
        bytes: Row::new(alloc),
        tokens: Row::from_vec(copied),
        forms,
        runs: runs_in(alloc, nodes)?,
    })
}
