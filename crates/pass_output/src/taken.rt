// Level 0: conversions go with their arguments.
ghost use Rattle.std.specs.Prelude.{◌≡◌, ◌++◌, Some, length, IfOk, OnOk};
ghost use Rattle.pass_levels.specs.Gathered.{gathered};
ghost use Rattle.pass_levels.specs.Level.{level_of};
ghost use Rattle.pass_levels.specs.Nodes.{node_at};
ghost use Rattle.pass_output.specs.Formats.{facts_of};
ghost use Rattle.pass_output.specs.Output.{argument_goes, taken_at, taken_by, taken_give};

use crate::conversions::{Conversion, conversion_at};
use crate::formats::{argument_at, conversions_in, format_at, put_counted, within};
use crate::known::Known;
use cr_rows::Row;
use pass_edit::{Change, Edits, Text};
use pass_levels::{Counted, Level, gone, list, span_at};
use std::alloc::{AllocError, Global};

// The argument goes with the comma before it.
fn argument_goes(known: &Known, argument: usize) -> Change
    ensures { result ≡ argument_goes (facts_of known.now) (node_at known.now.nodes.now argument) }
{
    let (first, last) = span_at(known.nodes, argument);
    gone(
        known.tokens,
        (first as usize).saturating_sub(1),
        last as usize,
    )
}

// A conversion goes with its argument.
fn put_taken(
    alloc: Global,
    known: &Known,
    token: u32,
    call: usize,
    argument: u32,
    conversion: Conversion,
    all: &mut Vec<Counted>,
) -> Result<(), AllocError>
    ensures { OnOk result (all.new.items ≡ all.old.items ++ taken_by (Some argument) (facts_of known.now) token (node_at known.now.nodes.now call) conversion) }
{
    let mut edit = Row::new(alloc);
    edit.push(within(
        known.tokens,
        token,
        conversion.start,
        conversion.end,
        Text::Nothing,
    )?)?;
    edit.push(argument_goes(known, argument as usize))?;
    put_counted(known, call, edit, all)
}

fn put_taken_at(
    alloc: Global,
    known: &Known,
    token: u32,
    call: usize,
    conversions: &[Conversion],
    at: usize,
    all: &mut Vec<Counted>,
) -> Result<(), AllocError>
    ensures { OnOk result (all.new.items ≡ all.old.items ++ taken_at (facts_of known.now) token (node_at known.now.nodes.now call) conversions.now at) }
{
    let conversion = conversion_at(conversions, at);
    match argument_at(known, call, at) {
        Some(argument) => put_taken(alloc, known, token, call, argument, conversion, all),
        None => Ok(()),
    }
}

fn put_each_taken(
    alloc: Global,
    known: &Known,
    token: u32,
    call: usize,
    conversions: &[Conversion],
    all: &mut Vec<Counted>,
) -> Result<(), AllocError>
    ensures { OnOk result (all.new.items ≡ all.old.items ++ gathered (taken_at (facts_of known.now) token (node_at known.now.nodes.now call) conversions.now) (length conversions.now)) }
{
    for at in 0..conversions.len() {
        put_taken_at(alloc, known, token, call, conversions, at, all)?;
    }
    Ok(())
}

fn put_taken_in(
    alloc: Global,
    known: &Known,
    call: usize,
    all: &mut Vec<Counted>,
) -> Result<(), AllocError>
    ensures { OnOk result (all.new.items ≡ all.old.items ++ taken_give (facts_of known.now) call) }
{
    match format_at(known, call) {
        Some(token) => {
            let conversions = conversions_in(alloc, known, token)?;
            put_each_taken(alloc, known, token, call, conversions.as_slice(), all)
        }
        None => Ok(()),
    }
}

// Each conversion goes with its argument.
#[derive(Drop)]
struct ConversionsGo<'a> {
    known: &'a Known<'a>,
}

impl Level for ConversionsGo<'_> {
    ghost gives = { λ l k. taken_give (facts_of l.known.now) k };

    fn give(&self, alloc: Global, node: usize, all: &mut Vec<Counted>) -> Result<(), AllocError> {
        put_taken_in(alloc, self.known, node, all)
    }
}

/// Level 0. The error is want of memory.
pub fn conversions_level(alloc: Global, known: &Known) -> Result<Edits, AllocError>
    ensures { IfOk result (λ edits. edits ≡ level_of (taken_give (facts_of known.now)) (length known.now.nodes.now)) }
{
    list(alloc, known.nodes.len(), &ConversionsGo { known })
}
