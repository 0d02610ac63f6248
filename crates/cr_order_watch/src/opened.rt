// Nodes that have begun and not ended.
ghost use Rattle.std.specs.Prelude.{◌≡◌, ◌<◌, ◌≤◌, [], ◌∷◌, ◌&&◌, ◌||◌, ℕ, true, false, Some, List, IfOk};
ghost use Rattle.std.specs.List.{list_any};
ghost use Rattle.cr_eval.specs.Table.{program_of};
ghost use Rattle.cr_eval_join.specs.Parts.{IsFootOf};
ghost use Rattle.cr_meaning.specs.Events.{Event};
ghost use Rattle.cr_meaning.specs.Quiet.{is_noisy};
ghost use Rattle.cr_meaning.specs.World.{Program};
ghost use Rattle.cr_meaning_seen.specs.Seen.{Forest, bare, node as tree, onto};
ghost use Rattle.cr_meaning_loose.specs.Levels.{Level};
ghost use Rattle.cr_meaning_loose.specs.Lists.{around, is_listed, last_of, IsListFine};
ghost use Rattle.cr_order_watch.specs.Known.{ArePieces, HasPieces, IsFirstOf, IsOpen, IsOwner, IsSum, is_asked};

use crate::cells::with_all;
use crate::kinds::{is_noisy, operands_of};
use crate::lists::{list_of, loose_list};
use cr_eval::Table;
use cr_footprint::{Foot, FootEnd, NoMemory};
use cr_rows::Row;
use std::alloc::{AllocError, Global};

/// A node that has begun and not ended.
#[derive(Drop)]
pub(crate) struct Open {
    pub(crate) node: u32,
    /// How many of its operands have no order among themselves; 0 where there aren't two.
    pub(crate) operands: usize,
    /// How many of these have ended.
    pub(crate) ended: usize,
    /// Whether it is evaluated within such an operand of another node.
    pub(crate) asked: bool,
    /// Whether of those that have ended none sees what another does.
    pub(crate) fixed: bool,
    /// Whether an assignment, `++`, `--`, a touch or a call was within what has ended.
    pub(crate) loud: bool,
    /// What that read, and wrote or touched.
    pub(crate) foot: Foot,
    /// The last of these operands, as far back as they are initialisers of lists.
    pub(crate) pieces: Row<Piece>,
}

/// What an evaluation that has ended comes to in all, those within it included.
#[derive(Drop)]
pub(crate) struct Piece {
    pub(crate) node: u32,
    pub(crate) loud: bool,
    pub(crate) foot: Foot,
}

impl Piece {
    /// Nothing, which no node comes to.
    pub(crate) fn none(alloc: Global) -> Piece
        ensures { (p : Program) → IsSum p result.loud result.foot bare }
    {
        Piece {
            node: 0,
            loud: false,
            foot: Foot::none(alloc),
        }
    }
}

impl Open {
    /// A node that is reached.
    pub(crate) fn new(alloc: Global, table: &Table, node: u32, asked: bool) -> Open
        ensures sums { (p : Program) (levels : List Level) → program_of table.now ≡ p → asked ≡ is_asked p levels → IsOpen p result (record { number = node; done = bare }) levels }
        ensures pieces { result.pieces ≡ [] }
    {
        Open {
            node,
            operands: operands_of(table, node),
            ended: 0,
            asked,
            fixed: true,
            loud: false,
            foot: Foot::none(alloc),
            pieces: Row::new(alloc),
        }
    }
}

pub(crate) fn either(one: bool, other: bool) -> bool
    ensures { result ≡ (one || other) }
{
    one || other
}

pub(crate) fn both(one: bool, other: bool) -> bool
    ensures { result ≡ (one && other) }
{
    one && other
}

/// Whether something is written or touched.
fn has_side_effect(own: &Foot) -> bool
    ensures { (events : List Event) → IsFootOf own.now events → result ≡ list_any is_noisy events }
{
    let written = own.writes();
    !written.is_empty()
}

/// The node has ended, with its own footprint.
fn summed(table: &Table, top: Open, own: &Foot) -> Result<Piece, NoMemory>
    ensures { (p : Program) (level : Level) (below : List Level) (events : List Event) → program_of table.now ≡ p → IsOpen p top level below → top.fixed ≡ true → top.asked ≡ true
        → IsFootOf own.now events → IfOk result (λ piece. (piece.node ≡ level.number) × IsSum p piece.loud piece.foot (tree level.number level.done (Some events) bare)) }
{
    let noisy = is_noisy(table, top.node);
    let effect = has_side_effect(own);
    let before = either(top.loud, noisy);
    let loud = either(before, effect);
    let node = top.node;
    match with_all(top.foot, own) {
        Ok(foot) => Ok(Piece { node, loud, foot }),
        Err(end) => Err(end),
    }
}

/// One more operand has ended.
fn one_more(alloc: Global, below: Open, piece: Piece) -> Result<Open, NoMemory>
    requires { below.ended < below.operands }
    ensures sums { (p : Program) (level : Level) (levels : List Level) (number : ℕ) (inner : Forest) (events : List Event) → IsOpen p below level levels
        → IsSum p piece.loud piece.foot (tree number inner (Some events) bare)
        → IfOk result (λ new. IsOpen p new (record { number = level.number; done = onto level.done (tree number inner (Some events) bare) }) levels) }
    ensures pieces { IfOk result (λ new. new.pieces ≡ below.pieces) }
{
    let ended = below.ended + 1;
    if !below.fixed {
        return Ok(Open { ended, ..below });
    }
    if both(below.loud, piece.loud) {
        return Ok(Open {
            ended,
            fixed: false,
            ..below
        });
    }
    let loud = either(below.loud, piece.loud);
    match below.foot.beside(piece.foot) {
        Ok(foot) => Ok(Open {
            ended,
            loud,
            foot,
            ..below
        }),
        Err(FootEnd::Conflict(_, _)) => Ok(Open {
            ended,
            fixed: false,
            foot: Foot::none(alloc),
            ..below
        }),
        Err(FootEnd::NoMemory) => Err(AllocError),
    }
}

/// What comes behind the operands has ended: the body of a call, or a part of a statement.
fn behind(below: Open, piece: Piece) -> Result<Open, NoMemory>
    ensures { (p : Program) (level : Level) (levels : List Level) (number : ℕ) (inner : Forest) (events : List Event) → IsOpen p below level levels → below.operands ≤ below.ended
        → below.asked ≡ true → IsSum p piece.loud piece.foot (tree number inner (Some events) bare)
        → IfOk result (λ new. IsOpen p new (record { number = level.number; done = onto level.done (tree number inner (Some events) bare) }) levels) }
{
    let loud = either(below.loud, piece.loud);
    match below.foot.then(piece.foot) {
        Ok(foot) => Ok(Open {
            loud,
            foot,
            ..below
        }),
        Err(end) => Err(end),
    }
}

/// The last operands, as far back as they are initialisers of lists, when one more has ended.
fn with_piece(
    alloc: Global,
    outer: &[Option<u32>],
    pieces: Row<Piece>,
    piece: &Piece,
) -> Result<Row<Piece>, NoMemory>
    ensures { (p : Program) (done inner : Forest) (number : ℕ) (events : List Event) → ArePieces p pieces (last_of (is_listed (around outer.now)) done) → piece.now.node ≡ number
        → IsSum p piece.now.loud piece.now.foot (tree number inner (Some events) bare)
        → IfOk result (λ all. ArePieces p all (last_of (is_listed (around outer.now)) (onto done (tree number inner (Some events) bare)))) }
{
    match list_of(outer, piece.node) {
        Some(_) => grown(alloc, pieces, piece),
        None => Ok(Row::new(alloc)),
    }
}

/// One more, a copy.
fn grown(alloc: Global, pieces: Row<Piece>, piece: &Piece) -> Result<Row<Piece>, NoMemory>
    ensures { (p : Program) (done inner : Forest) (number : ℕ) (events : List Event) → ArePieces p pieces done → piece.now.node ≡ number
        → IsSum p piece.now.loud piece.now.foot (tree number inner (Some events) bare) → IfOk result (λ all. ArePieces p all (onto done (tree number inner (Some events) bare))) }
{
    let mut all = pieces;
    match copied(alloc, piece) {
        Ok(copy) => match all.push(copy) {
            Ok(()) => Ok(all),
            Err(end) => Err(end),
        },
        Err(end) => Err(end),
    }
}

fn copied(alloc: Global, piece: &Piece) -> Result<Piece, NoMemory>
    ensures { IfOk result (λ copy. (copy.node ≡ piece.now.node) × ((p : Program) (forest : Forest) → IsSum p piece.now.loud piece.now.foot forest → IsSum p copy.loud copy.foot forest)) }
{
    let node = piece.node;
    let loud = piece.loud;
    match with_all(Foot::none(alloc), &piece.foot) {
        Ok(foot) => Ok(Piece { node, loud, foot }),
        Err(end) => Err(end),
    }
}

/// The owner, with the first list that ends with this operand and of which two initialisers see one another.
fn with_list(
    alloc: Global,
    table: &Table,
    outer: &[Option<u32>],
    owner: Open,
    node: u32,
) -> Result<(Open, Option<u32>), NoMemory>
    ensures { (p : Program) (level : Level) (levels : List Level) (number : ℕ) (inner : Forest) (events : List Event) → program_of table.now ≡ p
        → IsOwner p (around outer.now) owner level levels number inner events → node ≡ number
        → IfOk result (λ new. (IsOpen p new.0 (record { number = level.number; done = onto level.done (tree number inner (Some events) bare) }) levels
        × HasPieces p (around outer.now) new.0 (record { number = level.number; done = onto level.done (tree number inner (Some events) bare) }))
        × IsFirstOf (IsListFine p (around outer.now) level.number level.done (tree number inner (Some events) bare) false) new.1 (around outer.now number)) }
{
    match loose_list(alloc, table, outer, &owner, node) {
        Ok(list) => Ok((owner, list)),
        Err(end) => Err(end),
    }
}

/// An operand has ended.
fn operand(
    alloc: Global,
    table: &Table,
    outer: &[Option<u32>],
    below: Open,
    piece: Piece,
) -> Result<(Open, Option<u32>), NoMemory>
    requires { below.ended < below.operands }
    ensures { (p : Program) (level : Level) (levels : List Level) (number : ℕ) (inner : Forest) (events : List Event) → program_of table.now ≡ p → IsOpen p below level levels
        → HasPieces p (around outer.now) below level → piece.node ≡ number → IsSum p piece.loud piece.foot (tree number inner (Some events) bare)
        → IfOk result (λ new. (IsOpen p new.0 (record { number = level.number; done = onto level.done (tree number inner (Some events) bare) }) levels
        × HasPieces p (around outer.now) new.0 (record { number = level.number; done = onto level.done (tree number inner (Some events) bare) }))
        × IsFirstOf (IsListFine p (around outer.now) level.number level.done (tree number inner (Some events) bare) false) new.1 (around outer.now number)) }
{
    let node = piece.node;
    match with_piece(alloc, outer, below.pieces, &piece) {
        Ok(pieces) => match one_more(alloc, Open { pieces, ..below }, piece) {
            Ok(owner) => with_list(alloc, table, outer, owner, node),
            Err(end) => Err(end),
        },
        Err(end) => Err(end),
    }
}

/// A node has ended, with its own footprint, within another one: that one, and the first list that ends with it and is loose.
pub(crate) fn handed(
    alloc: Global,
    table: &Table,
    outer: &[Option<u32>],
    top: Open,
    own: &Foot,
    below: Open,
) -> Result<(Open, Option<u32>), NoMemory>
    ensures { (p : Program) (level next : Level) (levels : List Level) (events : List Event) → program_of table.now ≡ p
        → IsOpen p top level (next ∷ levels) → IsOpen p below next levels → HasPieces p (around outer.now) below next → top.fixed ≡ true → top.asked ≡ true → IsFootOf own.now events
        → IfOk result (λ new. (IsOpen p new.0 (record { number = next.number; done = onto next.done (tree level.number level.done (Some events) bare) }) levels
        × HasPieces p (around outer.now) new.0 (record { number = next.number; done = onto next.done (tree level.number level.done (Some events) bare) }))
        × IsFirstOf (IsListFine p (around outer.now) next.number next.done (tree level.number level.done (Some events) bare) false) new.1 (around outer.now level.number)) }
{
    match summed(table, top, own) {
        Ok(piece) => {
            if below.ended < below.operands {
                operand(alloc, table, outer, below, piece)
            } else {
                match behind(below, piece) {
                    Ok(below) => Ok((below, None)),
                    Err(end) => Err(end),
                }
            }
        }
        Err(end) => {
            drop(below);
            Err(end)
        }
    }
}
