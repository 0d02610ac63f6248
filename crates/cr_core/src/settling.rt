ghost use Rattle.std.specs.Prelude.{◌≡◌, ◌≢◌, ◌↔◌, ◌+◌, ◌<◌, ℕ, List, [], ◌∷◌, ◌++◌, length, IsTrue, MatchOption, OnOk, OnErr};
ghost use Rattle.cr_core.specs.Row.{last_mark, last_position, with_last, IsLast};
ghost use Rattle.cr_core.specs.Sound.{IsOver};
ghost use Rattle.cr_core.specs.Machine.{MaySettle, MayClaim, MayLeave, claimed, settled};

use crate::events::Settle;
use crate::marks::{Entry, Mark};
use cr_rows::Row;
use std::alloc::AllocError;

// The last entry of a list, where it has one.
fn last(row: &Row<Entry>) -> Option<Entry>
    ensures { MatchOption result (row.now ≡ []) (IsLast row.now) }
{
    row.as_slice().last().copied()
}

// The position of the last entry, where that is open.
pub(crate) fn open_position(row: &Row<Entry>) -> Option<u64>
    ensures { MatchOption result (last_mark row.now ≢ Mark.Open) (λ p. (last_mark row.now ≡ Mark.Open) × (last_position row.now ≡ p)) }
{
    let last = last(row)?;
    match last.mark {
        Mark::Open => Some(last.position),
        _ => None,
    }
}

// Whether no one need try a position.
pub(crate) fn is_over(len: u64, least: u64, position: u64) -> bool
    ensures { IsTrue result ↔ IsOver len least position }
{
    position >= len || position > least / 4
}

fn may_settle(len: u64, least: u64, done: Settle, row: &Row<Entry>) -> bool
    ensures { IsTrue result ↔ MaySettle len least done row.now }
{
    match (done, open_position(row)) {
        (Settle::Nothing, open) => open.is_none(),
        (_, None) => false,
        (Settle::No, Some(position)) => position < len,
        (Settle::Skipped, Some(position)) => is_over(len, least, position),
    }
}

pub(crate) fn may_claim(len: u64, least: u64, done: Settle, row: &Row<Entry>) -> bool
    ensures { IsTrue result ↔ MayClaim len least done row.now }
{
    let before = match last(row) {
        None => true,
        Some(entry) => entry.position < len,
    };
    before && may_settle(len, least, done, row)
}

pub(crate) fn may_leave(len: u64, least: u64, done: Settle, row: &Row<Entry>) -> bool
    ensures { IsTrue result ↔ MayLeave len least done row.now }
{
    let over = match last(row) {
        None => false,
        Some(entry) => is_over(len, least, entry.position),
    };
    over && may_settle(len, least, done, row)
}

// Another mark for the entry at `at`: the last one of the entries up to there.
fn re_mark(row: &mut Row<Entry>, at: usize, mark: Mark)
    requires { at < length row.old }
    ensures { (l r : List Entry) → row.old ≡ l ++ r → length l ≡ at + 1 → row.new ≡ with_last mark l ++ r }
{
    let position = row.as_slice()[at].position;
    row.set(at, Entry { position, mark });
}

// Another mark for the last entry.
pub(crate) fn mark_last(row: &mut Row<Entry>, mark: Mark)
    ensures { row.new ≡ with_last mark row.old }
{
    let len = row.len();
    if len > 0 {
        re_mark(row, len - 1, mark);
    }
}

// Settles the entry at `at`.
fn settle_at(row: &mut Row<Entry>, at: usize, done: Settle)
    requires { at < length row.old }
    ensures { (l r : List Entry) → row.old ≡ l ++ r → length l ≡ at + 1 → row.new ≡ settled done l ++ r }
{
    match done {
        Settle::Nothing => {}
        Settle::No => re_mark(row, at, Mark::No),
        Settle::Skipped => re_mark(row, at, Mark::Skipped),
    }
}

pub(crate) fn settle(row: &mut Row<Entry>, done: Settle)
    ensures { row.new ≡ settled done row.old }
{
    match done {
        Settle::Nothing => {}
        Settle::No => mark_last(row, Mark::No),
        Settle::Skipped => mark_last(row, Mark::Skipped),
    }
}

// The entry of a claimed position is pushed before the one below it is settled, so that nothing has changed where memory is wanting.
pub(crate) fn add(row: &mut Row<Entry>, done: Settle, position: u64) -> Result<(), AllocError>
    ensures ok { OnOk result (row.new ≡ claimed position done row.old) }
    ensures err { OnErr result (row.new ≡ row.old) }
{
    let len = row.len();
    row.push(Entry {
        position,
        mark: Mark::Open,
    })?;
    if len > 0 {
        settle_at(row, len - 1, done);
    }
    Ok(())
}
