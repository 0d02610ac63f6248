ghost use Rattle.std.specs.Prelude.{◌≡◌, ◌++◌, ◌∷◌, [], IfOk, OnOk, false};
ghost use Rattle.cr_check_types.specs.Types.{type_at};
ghost use Rattle.cr_check_initialisers.specs.Known.{known_of};
ghost use Rattle.cr_check_initialisers.specs.Places.{opens};
ghost use Rattle.cr_check_initialisers.specs.Plans.{put, excess, entry_of, entries_of};
ghost use Rattle.cr_check_initialisers.specs.Steps.{place_of, places_of, left, from_part, Placed, GoesOn};

use crate::kind::{is_lost, opens, takes};
use crate::lines::Line;
use crate::part::{Frame, Part, inside, next, open, push_frame};
use crate::source::{Source, initialisers};
use cr_typed::Put;
use std::alloc::{AllocError, Global};

/// Fills these places with the initialisers of a list in braces.
#[cycle(walk)]
pub(crate) fn braced(
    alloc: Global,
    source: &Source,
    node: u32,
    places: Frame,
    lines: &mut Vec<Line>,
) -> Result<(), AllocError>
    ensures { OnOk result (Placed source.now (places_of source.now places) node ((known_of source.now).initialisers node) lines.old.items lines.new.items) }
{
    let mut stack = Vec::new(alloc);
    push_frame(source, places, &mut stack)?;
    fill(
        alloc,
        source,
        node,
        initialisers(source, node),
        &mut stack,
        lines,
    )
}

#[cycle(walk)]
fn fill(
    alloc: Global,
    source: &Source,
    brace: u32,
    list: &[u32],
    stack: &mut Vec<Frame>,
    lines: &mut Vec<Line>,
) -> Result<(), AllocError>
    ensures { OnOk result (Placed source.now (left source.now stack.old.items) brace list.now lines.old.items lines.new.items) }
{
    for node in list {
        if !place(alloc, source, brace, *node, stack, lines)? {
            return Ok(());
        }
    }
    Ok(())
}

// Places one initialiser; false where the rest of its list isn't judged.
#[cycle(walk)]
fn place(
    alloc: Global,
    source: &Source,
    brace: u32,
    node: u32,
    stack: &mut Vec<Frame>,
    lines: &mut Vec<Line>,
) -> Result<bool, AllocError>
    ensures { IfOk result (GoesOn source.now brace node (left source.now stack.old.items) (left source.now stack.new.items) lines.old.items lines.new.items) }
{
    match next(source, stack)? {
        Some(part) => {
            if opens(source, brace, node) {
                let rest = inside(source, part.row, initialisers(source, node));
                let cell = part.cell;
                braced(alloc, source, node, Frame { cell, rest }, lines)?;
                Ok(true)
            } else {
                settle(source, brace, node, part, stack, lines)
            }
        }
        None => {
            exceed(source, brace, lines)?;
            Ok(false)
        }
    }
}

// Places an expression, at a place or at the first part of it that the expression initialises.
fn settle(
    source: &Source,
    brace: u32,
    node: u32,
    first: Part,
    stack: &mut Vec<Frame>,
    lines: &mut Vec<Line>,
) -> Result<bool, AllocError>
    requires { opens (known_of source.now) brace node ≡ false }
    ensures { IfOk result (GoesOn source.now brace node (from_part source.now first stack.old.items) (left source.now stack.new.items) lines.old.items lines.new.items) }
{
    let mut part = first;
    for _ in 0..u64::MAX {
        if takes(source, part.row, node) {
            initialise(source, part, node, brace, lines)?;
            return Ok(true);
        }
        if is_lost(source, part.row, node) {
            initialise(source, part, node, brace, lines)?;
            return Ok(false);
        }
        open(source, part, stack)?;
        match next(source, stack)? {
            Some(inner) => part = inner,
            None => {
                exceed(source, brace, lines)?;
                return Ok(false);
            }
        }
    }
    Err(AllocError)
}

fn exceed(source: &Source, brace: u32, lines: &mut Vec<Line>) -> Result<(), AllocError>
    ensures { OnOk result (entries_of source.now.table.now lines.new.items ≡ entries_of source.now.table.now lines.old.items ++ excess brace ∷ []) }
{
    add(source, Line::Excess(brace), lines)
}

/// An expression initialises a part, whose value `user` uses.
pub(crate) fn initialise(
    source: &Source,
    part: Part,
    node: u32,
    user: u32,
    lines: &mut Vec<Line>,
) -> Result<(), AllocError>
    ensures { OnOk result (entries_of source.now.table.now lines.new.items ≡ entries_of source.now.table.now lines.old.items ++ put (place_of source.now part) node user ∷ []) }
{
    let cell = short(part.cell)?;
    let row = part.row;
    add(
        source,
        Line::Put(Put {
            node,
            cell,
            row,
            user,
        }),
        lines,
    )
}

fn short(cell: u64) -> Result<u32, AllocError>
    ensures { IfOk result (λ n. n ≡ cell) }
{
    u32::try_from(cell).map_err(|_| AllocError)
}

#[tactic(auto, using(crate::proofs::Lists::one_line))]
fn add(source: &Source, line: Line, lines: &mut Vec<Line>) -> Result<(), AllocError>
    ensures { OnOk result (entries_of source.now.table.now lines.new.items ≡ entries_of source.now.table.now lines.old.items ++ entry_of source.now.table.now line ∷ []) }
{
    lines.push(line)?;
    Ok(())
}
