// Level 2: a declaration becomes its initialiser.
ghost use Rattle.std.specs.Prelude.{◌≡◌, ◌++◌, ◌∷◌, [], Some, length, IfOk, OnOk};
ghost use Rattle.std.specs.List.{flat_map};
ghost use Rattle.pass_levels.specs.Level.{level_of};
ghost use Rattle.pass_levels.specs.Nodes.{node_at};
ghost use Rattle.pass_values.specs.Declarators.{declared_uses as declared_uses_of, facts_of, named_in};
ghost use Rattle.pass_values.specs.Values.{bared, bared_alone, bared_by, bared_if, items_give, only_of};

use crate::declarators::{declared_uses, initial_of, named_in, row_at};
use crate::initial::{only_of, put_counted};
use crate::known::Known;
use cr_rows::Row;
use cr_syntax::Kind;
use pass_edit::Edits;
use pass_levels::{Counted, Level, gone, kind_at, list, parts_at, span_at};
use std::alloc::{AllocError, Global};

fn put_bared(
    alloc: Global,
    known: &Known,
    declaration: usize,
    expression: u32,
    all: &mut Vec<Counted>,
) -> Result<(), AllocError>
    ensures { OnOk result (all.new.items ≡ all.old.items ++ bared (facts_of known.now) (node_at known.now.nodes.now declaration) expression ∷ []) }
{
    let (first, _) = span_at(known.nodes, declaration);
    let (behind, _) = span_at(known.nodes, expression as usize);
    let mut edit = Row::new(alloc);
    edit.push(gone(
        known.tokens,
        first as usize,
        (behind as usize).saturating_sub(1),
    ))?;
    put_counted(known, declaration, edit, all)
}

fn put_bared_if(
    alloc: Global,
    known: &Known,
    declaration: usize,
    uses: &[u32],
    expression: u32,
    all: &mut Vec<Counted>,
) -> Result<(), AllocError>
    ensures { OnOk result (all.new.items ≡ all.old.items ++ bared_if uses.now (facts_of known.now) (node_at known.now.nodes.now declaration) expression) }
{
    if uses.len() == 0 {
        put_bared(alloc, known, declaration, expression, all)?;
    }
    Ok(())
}

fn uses_in<'a>(known: &Known<'a>, part: u32) -> &'a [u32]
    ensures { result.now ≡ declared_uses_of known.now.nodes.now known.now.names.now (named_in known.now.nodes.now part) }
{
    declared_uses(known.nodes, known.names, named_in(known.nodes, part))
}

fn put_bared_of(
    alloc: Global,
    known: &Known,
    declaration: usize,
    part: u32,
    all: &mut Vec<Counted>,
) -> Result<(), AllocError>
    ensures { OnOk result (all.new.items ≡ all.old.items ++ bared_alone (Some part) (facts_of known.now) (node_at known.now.nodes.now declaration)) }
{
    match initial_of(known.nodes, part) {
        Some(expression) => {
            let uses = uses_in(known, part);
            put_bared_if(alloc, known, declaration, uses, expression, all)
        }
        None => Ok(()),
    }
}

fn put_bared_alone(
    alloc: Global,
    known: &Known,
    declaration: usize,
    row: &[u32],
    all: &mut Vec<Counted>,
) -> Result<(), AllocError>
    ensures { OnOk result (all.new.items ≡ all.old.items ++ bared_alone (only_of row.now) (facts_of known.now) (node_at known.now.nodes.now declaration)) }
{
    match only_of(row) {
        Some(part) => put_bared_of(alloc, known, declaration, part, all),
        None => Ok(()),
    }
}

fn put_item(
    alloc: Global,
    known: &Known,
    part: usize,
    all: &mut Vec<Counted>,
) -> Result<(), AllocError>
    ensures { OnOk result (all.new.items ≡ all.old.items ++ bared_by (node_at known.now.nodes.now part).kind (facts_of known.now) (node_at known.now.nodes.now part)) }
{
    let row = row_at(known.nodes, part);
    match kind_at(known.nodes, part) {
        Kind::Declaration => put_bared_alone(alloc, known, part, row, all),
        _ => Ok(()),
    }
}

fn put_items(
    alloc: Global,
    known: &Known,
    parts: &[u32],
    all: &mut Vec<Counted>,
) -> Result<(), AllocError>
    ensures { OnOk result (all.new.items ≡ all.old.items ++ flat_map (λ p. bared_by (node_at known.now.nodes.now p).kind (facts_of known.now) (node_at known.now.nodes.now p)) parts.now) }
{
    for part in parts {
        put_item(alloc, known, *part as usize, all)?;
    }
    Ok(())
}

// Each declaration in a block becomes its initialiser.
#[derive(Drop)]
struct DeclarationsBecome<'a> {
    known: &'a Known<'a>,
}

impl Level for DeclarationsBecome<'_> {
    ghost gives = { λ l k. items_give (facts_of l.known.now) k };

    fn give(&self, alloc: Global, node: usize, all: &mut Vec<Counted>) -> Result<(), AllocError> {
        let parts = parts_at(self.known.nodes, node);
        match kind_at(self.known.nodes, node) {
            Kind::Compound => put_items(alloc, self.known, parts, all),
            _ => Ok(()),
        }
    }
}

/// Level 2. The error is want of memory.
pub fn declarations_level(alloc: Global, known: &Known) -> Result<Edits, AllocError>
    ensures { IfOk result (λ edits. edits ≡ level_of (items_give (facts_of known.now)) (length known.now.nodes.now)) }
{
    list(alloc, known.nodes.len(), &DeclarationsBecome { known })
}
