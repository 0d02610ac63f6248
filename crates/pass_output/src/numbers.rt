// Level 2: conversions of integers become `%d`.
ghost use Rattle.std.specs.Prelude.{◌≡◌, ◌++◌, Some, length, IfOk, OnOk};
ghost use Rattle.std.specs.List.{position};
ghost use Rattle.cr_syntax.specs.declared.node.Kind.TheVariants.{Cast};
ghost use Rattle.pass_levels.specs.Gathered.{gathered};
ghost use Rattle.pass_levels.specs.Level.{level_of};
ghost use Rattle.pass_levels.specs.Nodes.{node_at};
ghost use Rattle.pass_levels.specs.Places.{spelling_at as spelling_by};
ghost use Rattle.pass_output.specs.Formats.{facts_of};
ghost use Rattle.pass_output.specs.Output.{is_suffix, number_at, number_by, numbers_give, part_at, plain_by, suffix_goes};

use crate::conversions::{Conversion, conversion_at, is_other, number};
use crate::formats::{argument_at, conversions_in, format_at, put_counted, spelling, within};
use crate::known::Known;
use cr_rows::Row;
use cr_syntax::Kind;
use pass_edit::{Change, Edits, Text};
use pass_levels::{Counted, Level, bytes_of, kind_at, list, parts_at, replaced, span_at};
use std::alloc::{AllocError, Global};

fn is_suffix(byte: u8) -> bool
    ensures { result ≡ is_suffix byte }
{
    matches!(byte, b'u' | b'U' | b'l' | b'L')
}

// Where the suffix of an integer constant begins.
fn suffix_at(text: &[u8]) -> Option<usize>
    ensures { result ≡ position is_suffix text.now }
{
    text.iter().position(|byte| is_suffix(*byte))
}

fn put_suffix(known: &Known, token: u32, edit: &mut Row<Change>) -> Result<(), AllocError>
    ensures { OnOk result (edit.new ≡ edit.old ++ suffix_goes (position is_suffix (spelling_by known.now.file.now known.now.tokens.now token)) (facts_of known.now) token) }
{
    let text = spelling(known, token);
    match suffix_at(text) {
        Some(at) => {
            let from = number(at)?;
            let to = number(text.len())?;
            edit.push(within(known.tokens, token, from, to, Text::Nothing)?)
        }
        None => Ok(()),
    }
}

fn part_at(parts: &[u32], at: usize) -> u32
    ensures { result ≡ part_at parts.now at }
{
    match parts.get(at) {
        Some(part) => *part,
        None => 0,
    }
}

// What is cast comes in the place of a cast.
fn put_cast(known: &Known, argument: usize, edit: &mut Row<Change>) -> Result<(), AllocError>
    ensures { OnOk result (edit.new ≡ edit.old ++ plain_by Cast (facts_of known.now) (node_at known.now.nodes.now argument)) }
{
    let (first, last) = span_at(known.nodes, argument);
    let part = part_at(parts_at(known.nodes, argument), 1);
    let text = bytes_of(known.tokens, known.nodes, part as usize);
    edit.push(replaced(known.tokens, first as usize, last as usize, text))
}

fn put_plain(known: &Known, argument: usize, edit: &mut Row<Change>) -> Result<(), AllocError>
    ensures { OnOk result (edit.new ≡ edit.old ++ plain_by (node_at known.now.nodes.now argument).kind (facts_of known.now) (node_at known.now.nodes.now argument)) }
{
    let (first, _) = span_at(known.nodes, argument);
    match kind_at(known.nodes, argument) {
        Kind::Cast => put_cast(known, argument, edit),
        Kind::Integer => put_suffix(known, first, edit),
        _ => Ok(()),
    }
}

// A conversion of another integer becomes `%d`, and its argument plain.
fn put_number(
    alloc: Global,
    known: &Known,
    token: u32,
    call: usize,
    argument: u32,
    conversion: Conversion,
    all: &mut Vec<Counted>,
) -> Result<(), AllocError>
    ensures { OnOk result (all.new.items ≡ all.old.items ++ number_by (Some argument) (facts_of known.now) token (node_at known.now.nodes.now call) conversion) }
{
    if is_other(conversion.letter) {
        let mut edit = Row::new(alloc);
        edit.push(within(
            known.tokens,
            token,
            conversion.start,
            conversion.end,
            Text::Kept(0, 2),
        )?)?;
        put_plain(known, argument as usize, &mut edit)?;
        put_counted(known, call, edit, all)?;
    }
    Ok(())
}

fn put_number_at(
    alloc: Global,
    known: &Known,
    token: u32,
    call: usize,
    conversions: &[Conversion],
    at: usize,
    all: &mut Vec<Counted>,
) -> Result<(), AllocError>
    ensures { OnOk result (all.new.items ≡ all.old.items ++ number_at (facts_of known.now) token (node_at known.now.nodes.now call) conversions.now at) }
{
    let conversion = conversion_at(conversions, at);
    match argument_at(known, call, at) {
        Some(argument) => put_number(alloc, known, token, call, argument, conversion, all),
        None => Ok(()),
    }
}

fn put_each_number(
    alloc: Global,
    known: &Known,
    token: u32,
    call: usize,
    conversions: &[Conversion],
    all: &mut Vec<Counted>,
) -> Result<(), AllocError>
    ensures { OnOk result (all.new.items ≡ all.old.items ++ gathered (number_at (facts_of known.now) token (node_at known.now.nodes.now call) conversions.now) (length conversions.now)) }
{
    for at in 0..conversions.len() {
        put_number_at(alloc, known, token, call, conversions, at, all)?;
    }
    Ok(())
}

fn put_numbers_in(
    alloc: Global,
    known: &Known,
    call: usize,
    all: &mut Vec<Counted>,
) -> Result<(), AllocError>
    ensures { OnOk result (all.new.items ≡ all.old.items ++ numbers_give (facts_of known.now) call) }
{
    match format_at(known, call) {
        Some(token) => {
            let conversions = conversions_in(alloc, known, token)?;
            put_each_number(alloc, known, token, call, conversions.as_slice(), all)
        }
        None => Ok(()),
    }
}

// Each conversion of another integer becomes `%d`.
#[derive(Drop)]
struct NumbersBecome<'a> {
    known: &'a Known<'a>,
}

impl Level for NumbersBecome<'_> {
    ghost gives = { λ l k. numbers_give (facts_of l.known.now) k };

    fn give(&self, alloc: Global, node: usize, all: &mut Vec<Counted>) -> Result<(), AllocError> {
        put_numbers_in(alloc, self.known, node, all)
    }
}

/// Level 2. The error is want of memory.
pub fn numbers_level(alloc: Global, known: &Known) -> Result<Edits, AllocError>
    ensures { IfOk result (λ edits. edits ≡ level_of (numbers_give (facts_of known.now)) (length known.now.nodes.now)) }
{
    list(alloc, known.nodes.len(), &NumbersBecome { known })
}
