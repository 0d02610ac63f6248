ghost use Rattle.std.specs.Prelude.{◌≡◌, [], ◌∷◌, ◌++◌, OnOk};
ghost use Rattle.tests_texts.specs.Levels.{counted, three};

use crate::rows::{expect_true, number, pair, rows};
use cr_rows::Row;
use cr_tokens::{Token, read};
use pass_edit::{Change, Edits, Text};
use pass_levels::{Counted, Level, Turns, in_turn, list, with_comma};
use std::alloc::{AllocError, Global};
use std::process::Abort;
use std::test::Fail;

// Part, number of parts, and its token; and where the change starts and ends. The first of three, the second, the last, and one alone.
const PARTS: &str = "
0 3 2¦2 4
1 3 4¦4 6
2 3 6¦5 7
0 1 6¦6 7
";

/// Each node gives three edits, which are told apart by where their changes start.
struct Three;

impl Level for Three {
    ghost gives = { λ _ node. three };

    fn give(&self, alloc: Global, _node: usize, all: &mut Vec<Counted>) -> Result<(), AllocError> {
        put(alloc, 5, 6, 1, all)?;
        put(alloc, 5, 9, 2, all)?;
        put(alloc, 1, 2, 3, all)
    }
}

fn put(
    alloc: Global,
    first: u32,
    last: u32,
    start: u32,
    all: &mut Vec<Counted>,
) -> Result<(), AllocError>
    ensures { OnOk result (all.new.items ≡ all.old.items ++ counted first last start ∷ []) }
{
    let mut edit = Row::new(alloc);
    edit.push(Change {
        start,
        end: 9,
        text: Text::Nothing,
    })?;
    all.push(Counted { first, last, edit })?;
    Ok(())
}

/// Each number gives two edits of nothing.
struct Two;

impl Turns for Two {
    ghost gives = { λ _ at. [] ∷ ([] ∷ []) };

    fn give(&self, _alloc: Global, _at: usize, edits: &mut Edits) -> Result<(), AllocError> {
        edits.push(&[])?;
        edits.push(&[])
    }
}

fn start_of(edits: &Edits, at: usize) -> u32 {
    match edits.get(at).first() {
        Some(change) => change.start,
        None => 0,
    }
}

fn are_starts(edits: &Edits, starts: &str) -> bool {
    let mut starts = starts.split_whitespace();
    for at in 0..edits.len() {
        if number(starts.next()) != start_of(edits, at) {
            return false;
        }
    }
    starts.next().is_none()
}

fn goes_so(tokens: &[Token], row: &str) -> bool {
    let (part, range) = pair(row);
    let mut words = part.split_whitespace();
    let at = number(words.next()) as usize;
    let count = number(words.next()) as usize;
    let part = number(words.next()) as usize;
    let change = with_comma(tokens, at, count, part, part);
    let mut ends = range.split_whitespace();
    number(ends.next()) == change.start && number(ends.next()) == change.end
}

fn expect_starts(rt: &impl Abort, alloc: Global, starts: &str) -> Result<(), AllocError> {
    let edits = list(alloc, 2, &Three)?;
    expect_true(rt, are_starts(&edits, starts), "of places");
    Ok(())
}

fn expect_in_turn(rt: &impl Abort, alloc: Global, count: usize) -> Result<(), AllocError> {
    let edits = in_turn(alloc, 3, &Two)?;
    expect_true(rt, edits.len() == count, "in turn");
    Ok(())
}

#[test]
fn edits_stand_in_the_order_of_their_places(rt: HostRuntime) -> Result<(), AllocError> {
    expect_starts(&rt, rt.alloc(), "3 3 2 2 1 1")?;
    expect_in_turn(&rt, rt.alloc(), 6)
}

#[test]
fn a_part_goes_with_its_comma(rt: HostRuntime) -> Result<(), Fail> {
    let tokens = read(rt.alloc(), b"f(a,b,c)")?.list;
    for row in rows(PARTS) {
        expect_true(&rt, goes_so(&tokens, row), row);
    }
    Ok(())
}
