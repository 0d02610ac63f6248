// Level 1: formats become their conversions.
ghost use Rattle.std.specs.Prelude.{◌≡◌, ◌++◌, length, IfOk, OnOk};
ghost use Rattle.pass_levels.specs.Level.{level_of};
ghost use Rattle.pass_levels.specs.Nodes.{node_at};
ghost use Rattle.pass_output.specs.Formats.{facts_of};
ghost use Rattle.pass_output.specs.Output.{bared_by, bared_give, bared_of, bytes_before, bytes_behind, bytes_beside, bytes_go};

use crate::conversions::{Conversion, conversion_at, end_before, number};
use crate::formats::{conversions_in, format_at, put_counted, spelling, within};
use crate::known::Known;
use cr_rows::Row;
use pass_edit::{Change, Edits, Text};
use pass_levels::{Counted, Level, list};
use std::alloc::{AllocError, Global};

// The bytes of a format from one on to before another go, where there are any.
fn put_bytes(
    known: &Known,
    token: u32,
    from: u32,
    to: u32,
    edit: &mut Row<Change>,
) -> Result<(), AllocError>
    ensures { OnOk result (edit.new ≡ edit.old ++ bytes_go (facts_of known.now) token from to) }
{
    if from < to {
        edit.push(within(known.tokens, token, from, to, Text::Nothing)?)?;
    }
    Ok(())
}

fn put_bytes_before(
    known: &Known,
    token: u32,
    conversions: &[Conversion],
    at: usize,
    edit: &mut Row<Change>,
) -> Result<(), AllocError>
    ensures { OnOk result (edit.new ≡ edit.old ++ bytes_before (facts_of known.now) token conversions.now at) }
{
    let from = end_before(conversions, at);
    put_bytes(
        known,
        token,
        from,
        conversion_at(conversions, at).start,
        edit,
    )
}

fn put_bytes_behind(
    known: &Known,
    token: u32,
    conversions: &[Conversion],
    edit: &mut Row<Change>,
) -> Result<(), AllocError>
    ensures { OnOk result (edit.new ≡ edit.old ++ bytes_behind (facts_of known.now) token conversions.now) }
{
    let from = end_before(conversions, conversions.len());
    let to = number(spelling(known, token).len().saturating_sub(1))?;
    put_bytes(known, token, from, to, edit)
}

// The bytes before, between and behind the conversions go.
fn bytes_beside(
    alloc: Global,
    known: &Known,
    token: u32,
    conversions: &[Conversion],
) -> Result<Row<Change>, AllocError>
    ensures { IfOk result (λ edit. edit ≡ bytes_beside (facts_of known.now) token conversions.now) }
{
    let mut edit = Row::new(alloc);
    for at in 0..conversions.len() {
        put_bytes_before(known, token, conversions, at, &mut edit)?;
    }
    put_bytes_behind(known, token, conversions, &mut edit)?;
    Ok(edit)
}

fn put_bared(
    known: &Known,
    call: usize,
    edit: Row<Change>,
    all: &mut Vec<Counted>,
) -> Result<(), AllocError>
    ensures { OnOk result (all.new.items ≡ all.old.items ++ bared_by (node_at known.now.nodes.now call) edit) }
{
    if edit.len() >= 1 {
        put_counted(known, call, edit, all)?;
    }
    Ok(())
}

fn put_bared_of(
    alloc: Global,
    known: &Known,
    token: u32,
    call: usize,
    conversions: &[Conversion],
    all: &mut Vec<Counted>,
) -> Result<(), AllocError>
    ensures { OnOk result (all.new.items ≡ all.old.items ++ bared_of (facts_of known.now) token (node_at known.now.nodes.now call) conversions.now) }
{
    if conversions.len() >= 1 {
        let edit = bytes_beside(alloc, known, token, conversions)?;
        put_bared(known, call, edit, all)?;
    }
    Ok(())
}

fn put_bared_in(
    alloc: Global,
    known: &Known,
    call: usize,
    all: &mut Vec<Counted>,
) -> Result<(), AllocError>
    ensures { OnOk result (all.new.items ≡ all.old.items ++ bared_give (facts_of known.now) call) }
{
    match format_at(known, call) {
        Some(token) => {
            let conversions = conversions_in(alloc, known, token)?;
            put_bared_of(alloc, known, token, call, conversions.as_slice(), all)
        }
        None => Ok(()),
    }
}

// Each format becomes its conversions.
#[derive(Drop)]
struct BytesGo<'a> {
    known: &'a Known<'a>,
}

impl Level for BytesGo<'_> {
    ghost gives = { λ l k. bared_give (facts_of l.known.now) k };

    fn give(&self, alloc: Global, node: usize, all: &mut Vec<Counted>) -> Result<(), AllocError> {
        put_bared_in(alloc, self.known, node, all)
    }
}

/// Level 1. The error is want of memory.
pub fn bytes_level(alloc: Global, known: &Known) -> Result<Edits, AllocError>
    ensures { IfOk result (λ edits. edits ≡ level_of (bared_give (facts_of known.now)) (length known.now.nodes.now)) }
{
    list(alloc, known.nodes.len(), &BytesGo { known })
}
