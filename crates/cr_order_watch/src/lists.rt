// Initialiser lists within one another: which of those that end with an initialiser, or are cut off, has two that see one another.
ghost use Rattle.std.specs.Prelude.{◌≡◌, ◌<◌, ◌≤◌, ℕ, true, false, not, List, Some, None, IfOk, IfSome, IfNone, length, slice_get, slice_index_or};
ghost use Rattle.cr_eval.specs.Table.{program_of};
ghost use Rattle.cr_meaning.specs.Events.{Event};
ghost use Rattle.cr_meaning.specs.World.{Program};
ghost use Rattle.cr_meaning_seen.specs.Seen.{Forest, bare, node as tree, onto};
ghost use Rattle.cr_meaning_orders.specs.Fixed.{IsFixedNode};
ghost use Rattle.cr_meaning_loose.specs.Levels.{Level};
ghost use Rattle.cr_meaning_loose.specs.Lists.{around, operand_behind, stands_in, goes_on, count_of, last_in, IsListFine};
ghost use Rattle.cr_order_watch.specs.Known.{IsSum, IsOpen, IsOwner, IsDecided, IsFirstOf, ArePieces, HasPieces, Hold, Before, IsCutBy, stands_at};

use crate::cells::with_all;
use crate::opened::{Open, Piece, both, either};
use cr_eval::Table;
use cr_footprint::{Foot, FootEnd, NoMemory};
use std::alloc::{AllocError, Global};

/// The list in which a node directly stands.
pub(crate) fn list_of(outer: &[Option<u32>], node: u32) -> Option<u32>
    ensures { result ≡ slice_index_or outer.now node None }
{
    match outer.get(node as usize) {
        Some(list) => *list,
        None => None,
    }
}

/// Whether the list is one of those around a node.
fn stands_in(outer: &[Option<u32>], list: u32, node: u32) -> bool
    ensures { result ≡ stands_in (around outer.now) list node }
{
    let mut at = node;
    let mut left = outer.len();
    while left > 0 {
        left -= 1;
        match list_of(outer, at) {
            Some(other) => {
                if other == list {
                    return true;
                }
                at = other;
            }
            None => return false,
        }
    }
    false
}

/// The operand that comes behind so many of a node.
fn operand_behind(table: &Table, owner: u32, count: usize) -> Option<u32>
    ensures { result ≡ operand_behind (program_of table.now) owner count }
{
    match table.ops.as_slice().get(owner as usize) {
        Some(op) => op.parts.as_slice().get(count).copied(),
        None => None,
    }
}

/// Whether another initialiser of the list comes behind so many of its declarator.
fn goes_on(table: &Table, outer: &[Option<u32>], owner: u32, count: usize, list: u32) -> bool
    ensures { result ≡ goes_on (program_of table.now) (around outer.now) owner count list }
{
    match operand_behind(table, owner, count) {
        Some(node) => stands_in(outer, list, node),
        None => false,
    }
}

/// Whether the operand at a place stands in the list.
fn stands_at(outer: &[Option<u32>], list: u32, pieces: &[Piece], at: usize) -> bool
    ensures { result ≡ stands_at (around outer.now) list (slice_get pieces.now at) }
{
    match pieces.get(at) {
        Some(piece) => stands_in(outer, list, piece.node),
        None => false,
    }
}

/// Where the last of some operands begin, as far back as they stand in the list.
fn start_of(outer: &[Option<u32>], list: u32, pieces: &[Piece]) -> usize
    ensures within { result ≤ length pieces.now }
    ensures hold { Hold (stands_in (around outer.now) list) pieces.now result }
    ensures before { Before (stands_in (around outer.now) list) pieces.now result }
{
    let mut from = pieces.len();
    while from > 0 {
        if !stands_at(outer, list, pieces, from - 1) {
            return from;
        }
        from -= 1;
    }
    0
}

/// The last of some operands, as far back as they stand in the list.
fn last_in<'a>(outer: &[Option<u32>], list: u32, pieces: &'a [Piece]) -> &'a [Piece]
    ensures { (p : Program) (forest : Forest) → ArePieces p pieces.now forest → ArePieces p result.now (last_in (around outer.now) list forest) }
{
    let from = start_of(outer, list, pieces);
    &pieces[from..]
}

/// What some operands come to together, with one more; None where that one and one before it see one another.
fn joined(alloc: Global, sum: Piece, piece: &Piece) -> Result<Option<Piece>, NoMemory>
    ensures { (p : Program) (count : ℕ) (done inner : Forest) (number : ℕ) (events : List Event) → IsSum p sum.loud sum.foot done
        → IsSum p piece.now.loud piece.now.foot (tree number inner (Some events) bare) → count_of done < count → IsFixedNode p count done
        → IfOk result (λ all. IfSome all (λ more. IsSum p more.loud more.foot (onto done (tree number inner (Some events) bare)) × IsFixedNode p count (onto done (tree number inner (Some events) bare)))
        × IfNone all (IsFixedNode p count (onto done (tree number inner (Some events) bare)) → ⊥)) }
{
    if both(sum.loud, piece.loud) {
        return Ok(None);
    }
    let node = piece.node;
    let loud = either(sum.loud, piece.loud);
    match with_all(Foot::none(alloc), &piece.foot) {
        Ok(foot) => match sum.foot.beside(foot) {
            Ok(foot) => Ok(Some(Piece { node, loud, foot })),
            Err(FootEnd::Conflict(_, _)) => Ok(None),
            Err(FootEnd::NoMemory) => Err(AllocError),
        },
        Err(end) => Err(end),
    }
}

/// Whether none of some operands sees what another does.
fn are_apart(alloc: Global, pieces: &[Piece]) -> Result<bool, NoMemory>
    ensures { (p : Program) (forest : Forest) → ArePieces p pieces.now forest
        → IfOk result (λ fixed. (fixed ≡ true → IsFixedNode p (count_of forest) forest) × (fixed ≡ false → IsFixedNode p (count_of forest) forest → ⊥)) }
{
    let mut sum = Piece::none(alloc);
    for piece in pieces {
        match joined(alloc, sum, piece)? {
            Some(more) => sum = more,
            None => return Ok(false),
        }
    }
    Ok(true)
}

/// Whether the list goes on behind the operands that have ended, or none of its own sees what another does.
fn is_fine(
    alloc: Global,
    table: &Table,
    outer: &[Option<u32>],
    owner: &Open,
    list: u32,
) -> Result<bool, NoMemory>
    ensures { (p : Program) (level : Level) (levels : List Level) (number : ℕ) (inner : Forest) (events : List Event) → program_of table.now ≡ p → IsOwner p (around outer.now) owner.now level levels number inner events
        → IfOk result (λ fine. IsDecided fine (IsListFine p (around outer.now) level.number level.done (tree number inner (Some events) bare) false list)) }
{
    if goes_on(table, outer, owner.node, owner.ended, list) {
        return Ok(true);
    }
    are_apart(alloc, last_in(outer, list, owner.pieces.as_slice()))
}

/// Of the lists that end with an operand the first of which two initialisers see one another.
fn first_loose(
    alloc: Global,
    table: &Table,
    outer: &[Option<u32>],
    owner: &Open,
    node: u32,
) -> Result<Option<u32>, NoMemory>
    ensures { (p : Program) (level : Level) (levels : List Level) (number : ℕ) (inner : Forest) (events : List Event) → program_of table.now ≡ p → IsOwner p (around outer.now) owner.now level levels number inner events
        → node ≡ number → IfOk result (λ list. IsFirstOf (IsListFine p (around outer.now) level.number level.done (tree number inner (Some events) bare) false) list (around outer.now number)) }
{
    let mut at = node;
    let mut left = outer.len();
    while left > 0 {
        left -= 1;
        let Some(list) = list_of(outer, at) else {
            return Ok(None);
        };
        if !is_fine(alloc, table, outer, owner, list)? {
            return Ok(Some(list));
        }
        at = list;
    }
    Ok(None)
}

/// Of the lists that end with an operand the first of which two initialisers see one another; none where no operands of the owner do.
pub(crate) fn loose_list(
    alloc: Global,
    table: &Table,
    outer: &[Option<u32>],
    owner: &Open,
    node: u32,
) -> Result<Option<u32>, NoMemory>
    ensures { (p : Program) (level : Level) (levels : List Level) (number : ℕ) (inner : Forest) (events : List Event) → program_of table.now ≡ p → IsOwner p (around outer.now) owner.now level levels number inner events
        → node ≡ number → IfOk result (λ list. IsFirstOf (IsListFine p (around outer.now) level.number level.done (tree number inner (Some events) bare) false) list (around outer.now number)) }
{
    if owner.fixed {
        return Ok(None);
    }
    first_loose(alloc, table, outer, owner, node)
}

/// Whether another initialiser of the list stands beside the operand that is cut off.
fn is_shared(table: &Table, outer: &[Option<u32>], owner: &Open, list: u32) -> bool
    requires { owner.now.ended < owner.now.operands }
    ensures { (p : Program) (level : Level) (levels : List Level) (number : ℕ) (inner : Forest) → program_of table.now ≡ p → IsOpen p owner.now level levels → HasPieces p (around outer.now) owner.now level
        → stands_in (around outer.now) list number ≡ true
        → IsDecided (not result) (IsListFine p (around outer.now) level.number level.done (tree number inner None bare) true list) }
{
    if goes_on(table, outer, owner.node, owner.ended + 1, list) {
        return true;
    }
    let pieces = owner.pieces.as_slice();
    if pieces.is_empty() {
        return false;
    }
    stands_at(outer, list, pieces, pieces.len() - 1)
}

/// Of the lists around an operand that is cut off the innermost that has another initialiser.
fn cut_list(table: &Table, outer: &[Option<u32>], owner: &Open, node: u32) -> Option<u32>
    requires { owner.now.ended < owner.now.operands }
    ensures { (p : Program) (level : Level) (levels : List Level) (number : ℕ) (inner : Forest) → program_of table.now ≡ p → IsOpen p owner.now level levels → HasPieces p (around outer.now) owner.now level
        → node ≡ number → IsFirstOf (IsListFine p (around outer.now) level.number level.done (tree number inner None bare) true) result (around outer.now number) }
{
    let mut at = node;
    let mut left = outer.len();
    while left > 0 {
        left -= 1;
        let Some(list) = list_of(outer, at) else {
            return None;
        };
        if is_shared(table, outer, owner, list) {
            return Some(list);
        }
        at = list;
    }
    None
}

/// What comes first where an operand is cut off: such a list, or else the owner.
pub(crate) fn cut_place(table: &Table, outer: &[Option<u32>], owner: &Open, node: u32) -> u32
    requires { owner.now.ended < owner.now.operands }
    ensures { (p : Program) (level : Level) (levels : List Level) → program_of table.now ≡ p → IsOpen p owner.now level levels → HasPieces p (around outer.now) owner.now level
        → IsCutBy p (around outer.now) owner.now level (Some node) (Some result) }
{
    match cut_list(table, outer, owner, node) {
        Some(list) => list,
        None => owner.node,
    }
}
