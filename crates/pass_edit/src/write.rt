// The file after an edit.
ghost use Rattle.std.specs.Prelude.{◌≡◌, ◌<◌, ◌≤◌, [], ◌∷◌, List, length, vec_capacity, IfOk, OnOk, OnErr};
ghost use Rattle.pass_edit.specs.Glue.{glued, glued_all};
ghost use Rattle.pass_edit.specs.Edit.{edited, pieces, text_bytes};
ghost use Rattle.pass_edit.specs.declared.change.Change.{Change as SpecChange};

use crate::fill::put_filled;
use crate::glue::put;
use crate::range::part;
use crate::{Change, Kept, Text};
use std::alloc::AllocError;

/// Sets `out` to the file after an edit. The changes are taken in the order of the list; one that begins before the end of an earlier one
/// goes with it. Where `out` has room for the whole text, no memory is taken and the call succeeds; after an error `out` is empty.
pub fn apply(
    file: &[u8],
    kept: &Kept,
    changes: &[Change],
    out: &mut Vec<u8>,
) -> Result<(), AllocError>
    ensures edited { OnOk result (out.new.items ≡ edited file.now kept.now changes.now) }
    ensures empty { OnErr result (out.new.items ≡ []) }
    ensures full { OnErr result (vec_capacity out.old < length (edited file.now kept.now changes.now)) }
{
    out.clear();
    let outcome = write(file, kept, changes, out);
    if outcome.is_err() {
        out.clear();
    }
    outcome
}

fn write(file: &[u8], kept: &Kept, changes: &[Change], out: &mut Vec<u8>) -> Result<(), AllocError>
    ensures written { OnOk result (out.new.items ≡ glued_all out.old.items (pieces file.now kept.now 0 changes.now)) }
    ensures capacity { vec_capacity out.old ≤ vec_capacity out.new }
    ensures full { OnErr result (vec_capacity out.old < length (glued_all out.old.items (pieces file.now kept.now 0 changes.now))) }
{
    let mut at = 0;
    for change in changes {
        at = put_change(file, kept, at, *change, out)?;
    }
    put(out, part(file, at, file.len()))
}

// Puts what stands before a change, and its text. Answers the place from which the file goes on.
fn put_change(
    file: &[u8],
    kept: &Kept,
    at: usize,
    change: Change,
    out: &mut Vec<u8>,
) -> Result<usize, AllocError>
    ensures put { IfOk result (λ to. (changes : List SpecChange) → glued_all out.new.items (pieces file.now kept.now to changes) ≡ glued_all out.old.items (pieces file.now kept.now at (change ∷ changes))) }
    ensures capacity { vec_capacity out.old ≤ vec_capacity out.new }
    ensures full { OnErr result ((changes : List SpecChange) → vec_capacity out.old < length (glued_all out.old.items (pieces file.now kept.now at (change ∷ changes)))) }
{
    let start = change.start as usize;
    let end = change.end as usize;
    if at > start {
        return Ok(at.max(end));
    }
    put_both(out, part(file, at, start), file, kept, change.text)?;
    Ok(end)
}

// Puts bytes, and behind them a text.
fn put_both(
    out: &mut Vec<u8>,
    first: &[u8],
    file: &[u8],
    kept: &Kept,
    text: Text,
) -> Result<(), AllocError>
    ensures both { OnOk result (out.new.items ≡ glued (glued out.old.items first.now) (text_bytes file.now kept.now text)) }
    ensures capacity { vec_capacity out.old ≤ vec_capacity out.new }
    ensures full { OnErr result (vec_capacity out.old < length (glued (glued out.old.items first.now) (text_bytes file.now kept.now text))) }
{
    put(out, first)?;
    put_text(out, file, kept, text)
}

fn put_text(out: &mut Vec<u8>, file: &[u8], kept: &Kept, text: Text) -> Result<(), AllocError>
    ensures glued { OnOk result (out.new.items ≡ glued out.old.items (text_bytes file.now kept.now text)) }
    ensures capacity { vec_capacity out.old ≤ vec_capacity out.new }
    ensures full { OnErr result (vec_capacity out.old < length (glued out.old.items (text_bytes file.now kept.now text))) }
{
    match text {
        Text::Nothing => put(out, b""),
        Text::Zero => put(out, b"0"),
        Text::One => put(out, b"1"),
        Text::Semicolon => put(out, b";"),
        Text::Void => put(out, b"void"),
        Text::Same(from, to) => put(out, part(file, from as usize, to as usize)),
        Text::Kept(from, to) => put(out, part(kept.bytes.as_slice(), from as usize, to as usize)),
        Text::Filled(first, form, runs) => put_filled(out, file, kept, first, form, runs),
    }
}
