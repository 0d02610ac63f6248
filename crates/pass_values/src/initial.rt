// Level 0: an initialiser comes to the one use of what it initialises.
ghost use Rattle.std.specs.Prelude.{◌≡◌, ◌++◌, ◌∷◌, [], length, IfOk, OnOk};
ghost use Rattle.pass_levels.specs.Gathered.{gathered};
ghost use Rattle.pass_levels.specs.Level.{level_of};
ghost use Rattle.pass_levels.specs.Nodes.{node_at};
ghost use Rattle.pass_values.specs.Declarators.{facts_of};
ghost use Rattle.pass_values.specs.Values.{counted_by, initials_give, is_within, moved, moved_at, moved_if, moved_to, only_of, only_use};

use crate::declarators::{comes_to, declarator_goes, declared_uses, initial_of, named_in, row_at};
use crate::known::Known;
use cr_rows::Row;
use cr_syntax::Kind;
use pass_edit::{Change, Edits};
use pass_levels::{Counted, Level, kind_at, list, span_at};
use pass_params::{in_order, part_at};
use std::alloc::{AllocError, Global};

fn is_within(first: u32, last: u32, token: u32) -> bool
    ensures { result ≡ is_within first last token }
{
    first <= token && token <= last
}

/// The only one of some tokens or parts, where there is just one.
pub fn only_of(uses: &[u32]) -> Option<u32>
    ensures { result ≡ only_of uses.now }
{
    if uses.len() == 1 { Some(uses[0]) } else { None }
}

// The one use of what a declarator with an initialiser declares.
fn only_use(known: &Known, part: u32) -> Option<u32>
    ensures { result ≡ only_use (facts_of known.now) part }
{
    let declarator = named_in(known.nodes, part);
    only_of(declared_uses(known.nodes, known.names, declarator))
}

/// Puts an edit that a node counts behind all others. The error is want of memory.
pub fn put_counted(
    known: &Known,
    node: usize,
    edit: Row<Change>,
    all: &mut Vec<Counted>,
) -> Result<(), AllocError>
    ensures { OnOk result (all.new.items ≡ all.old.items ++ counted_by (node_at known.now.nodes.now node) edit ∷ []) }
{
    let (first, last) = span_at(known.nodes, node);
    all.push(Counted { first, last, edit })?;
    Ok(())
}

fn put_moved(
    alloc: Global,
    known: &Known,
    declaration: usize,
    row: &[u32],
    at: usize,
    expression: u32,
    used: u32,
    all: &mut Vec<Counted>,
) -> Result<(), AllocError>
    ensures { OnOk result (all.new.items ≡ all.old.items ++ moved (facts_of known.now) (node_at known.now.nodes.now declaration) row.now at expression used ∷ []) }
{
    let part = part_at(row, at) as usize;
    let mut changes = Vec::new(alloc);
    changes.push(comes_to(known.tokens, used, expression))?;
    changes.push(declarator_goes(known.tokens, known.nodes, declaration, at, row.len(), part))?;
    let edit = in_order(alloc, changes.as_slice())?;
    put_counted(known, part, edit, all)
}

fn put_moved_if(
    alloc: Global,
    known: &Known,
    declaration: usize,
    row: &[u32],
    at: usize,
    expression: u32,
    used: u32,
    all: &mut Vec<Counted>,
) -> Result<(), AllocError>
    ensures { OnOk result (all.new.items ≡ all.old.items ++ moved_if (facts_of known.now) (node_at known.now.nodes.now declaration) row.now at expression used) }
{
    let (first, last) = span_at(known.nodes, part_at(row, at) as usize);
    if is_within(first, last, used) {
        return Ok(());
    }
    put_moved(alloc, known, declaration, row, at, expression, used, all)
}

fn put_moved_to(
    alloc: Global,
    known: &Known,
    declaration: usize,
    row: &[u32],
    at: usize,
    expression: u32,
    used: Option<u32>,
    all: &mut Vec<Counted>,
) -> Result<(), AllocError>
    ensures { OnOk result (all.new.items ≡ all.old.items ++ moved_to used (facts_of known.now) (node_at known.now.nodes.now declaration) row.now at expression) }
{
    match used {
        Some(used) => put_moved_if(alloc, known, declaration, row, at, expression, used, all),
        None => Ok(()),
    }
}

fn put_moved_at(
    alloc: Global,
    known: &Known,
    declaration: usize,
    row: &[u32],
    at: usize,
    all: &mut Vec<Counted>,
) -> Result<(), AllocError>
    ensures { OnOk result (all.new.items ≡ all.old.items ++ moved_at (facts_of known.now) (node_at known.now.nodes.now declaration) row.now at) }
{
    let part = part_at(row, at);
    match initial_of(known.nodes, part) {
        Some(expression) => {
            let used = only_use(known, part);
            put_moved_to(alloc, known, declaration, row, at, expression, used, all)
        }
        None => Ok(()),
    }
}

fn put_row(
    alloc: Global,
    known: &Known,
    declaration: usize,
    row: &[u32],
    all: &mut Vec<Counted>,
) -> Result<(), AllocError>
    ensures { OnOk result (all.new.items ≡ all.old.items ++ gathered (moved_at (facts_of known.now) (node_at known.now.nodes.now declaration) row.now) (length row.now)) }
{
    for at in 0..row.len() {
        put_moved_at(alloc, known, declaration, row, at, all)?;
    }
    Ok(())
}

fn put_initials(
    alloc: Global,
    known: &Known,
    node: usize,
    all: &mut Vec<Counted>,
) -> Result<(), AllocError>
    ensures { OnOk result (all.new.items ≡ all.old.items ++ initials_give (facts_of known.now) node) }
{
    match kind_at(known.nodes, node) {
        Kind::Declaration => { put_row(alloc, known, node, row_at(known.nodes, node), all) }
        _ => Ok(()),
    }
}

// Each initialiser comes to the one use.
#[derive(Drop)]
struct InitialsMove<'a> {
    known: &'a Known<'a>,
}

impl Level for InitialsMove<'_> {
    ghost gives = { λ l k. initials_give (facts_of l.known.now) k };

    fn give(&self, alloc: Global, node: usize, all: &mut Vec<Counted>) -> Result<(), AllocError> {
        put_initials(alloc, self.known, node, all)
    }
}

/// Level 0. The error is want of memory.
pub fn initials_level(alloc: Global, known: &Known) -> Result<Edits, AllocError>
    ensures { IfOk result (λ edits. edits ≡ level_of (initials_give (facts_of known.now)) (length known.now.nodes.now)) }
{
    list(alloc, known.nodes.len(), &InitialsMove { known })
}
