ghost use Rattle.std.specs.Prelude.{◌≡◌, ℕ, suc, List, [], ◌∷◌, IfOk, IfErr};
ghost use Rattle.cr_footprint.specs.Foot.{sets, then_of};
ghost use Rattle.cr_meaning.specs.Events.{Event, Reads, Touches, Writes, Arguments, own, gathered};
ghost use Rattle.cr_meaning.specs.Work.{deed_of, events_from};
ghost use Rattle.cr_eval.specs.Deeds.{events_of};
ghost use Rattle.cr_eval_join.specs.Parts.{IsFootOf};
ghost use Rattle.cr_eval_join.specs.Feet.{trap_of, trapped, placed, Unites, AreBelow, Adds, Argues};

use cr_eval::Deeds;
use cr_footprint::{Foot, FootEnd};
use cr_memory::Trap;
use std::alloc::Global;
use std::mem;

/// U12: a side effect on a scalar is unsequenced to another one, or to a value computation that uses it (C11 6.5p2).
pub const UNSEQUENCED: u8 = 12;

#[inline]
pub(crate) fn trap_of(end: FootEnd) -> Trap
    ensures { result ≡ trap_of end }
{
    match end {
        FootEnd::Conflict(_, _) => Trap::Undefined(UNSEQUENCED),
        FootEnd::NoMemory => Trap::NoMemory,
    }
}

#[inline]
fn trapped(found: Result<Foot, FootEnd>) -> Result<Foot, Trap>
    ensures { result ≡ trapped found }
{
    match found {
        Ok(foot) => Ok(foot),
        Err(end) => Err(trap_of(end)),
    }
}

// ---- two operands

/// Two unsequenced operands (6.5p3): U12.
fn beside(left: Foot, right: Foot) -> Result<Foot, Trap>
    ensures { Unites (sets left) (sets right) result }
{
    trapped(left.beside(right))
}

/// An operand, a sequence point, and the other operand.
pub(crate) fn sequence(left: Foot, right: Foot) -> Result<Foot, Trap>
    ensures joined { IfOk result (λ foot. sets foot ≡ then_of (sets left) (sets right)) }
    ensures causes { IfErr result (λ trap. trap ≡ Trap.NoMemory) }
{
    match left.then(right) {
        Ok(foot) => Ok(foot),
        Err(_) => Err(Trap::NoMemory),
    }
}

// ---- the arguments of a call

/// A call's argument before the later ones: each is sequenced before the call, and no one before another (6.5.2.2p10). The footprint
/// of all arguments is made from the last one backwards, with the empty one behind it; U12 between two of them is found at the first of
/// these.
pub fn argument(alloc: Global, foot: Foot, later: Foot) -> Result<Foot, Trap>
    ensures { (number : ℕ) (events : List Event) (rest : List (List Event)) → IsFootOf foot events → IsFootOf later (gathered Arguments (suc number) rest)
        → Argues number events rest result }
{
    match sequence(foot, Foot::none(alloc)) {
        Ok(settled) => beside(settled, later),
        Err(trap) => Err(trap),
    }
}

// ---- a node's own events

fn with_read(foot: Foot, object: u32, cell: u32) -> Result<Foot, Trap>
    ensures { (all : List Event) → AreBelow all → IsFootOf foot all → Adds (own Reads (object, cell) ∷ []) all result }
{
    trapped(foot.own_read(object, cell))
}

fn with_touch(foot: Foot, object: u32, cell: u32) -> Result<Foot, Trap>
    ensures { (all : List Event) → AreBelow all → IsFootOf foot all → Adds (own Touches (object, cell) ∷ []) all result }
{
    trapped(foot.own_touch(object, cell))
}

fn with_write(foot: Foot, object: u32, cell: u32) -> Result<Foot, Trap>
    ensures { (all : List Event) → AreBelow all → IsFootOf foot all → Adds (own Writes (object, cell) ∷ []) all result }
{
    trapped(foot.own_write(object, cell))
}

/// The cells that a structure's value is read from.
fn with_reads(foot: Foot, object: u32, first: u32, count: u32) -> Result<Foot, Trap>
    ensures { (all : List Event) → AreBelow all → IsFootOf foot all → Adds (events_from Reads object first count) all result }
{
    match first.checked_add(count) {
        Some(end) => trapped(foot.own_reads(object, first..end)),
        None => Err(Trap::NoMemory),
    }
}

/// The cells that a structure is stored in.
fn with_writes(foot: Foot, object: u32, first: u32, count: u32) -> Result<Foot, Trap>
    ensures { (all : List Event) → AreBelow all → IsFootOf foot all → Adds (events_from Writes object first count) all result }
{
    match first.checked_add(count) {
        Some(end) => trapped(foot.own_writes(object, first..end)),
        None => Err(Trap::NoMemory),
    }
}

fn with_each_read(foot: Foot, object: u32, first: u32, count: u32) -> Result<Foot, Trap>
    ensures { (all : List Event) → AreBelow all → IsFootOf foot all → Adds (events_from Reads object first count) all result }
{
    if count == 1 {
        return with_read(foot, object, first);
    }
    with_reads(foot, object, first, count)
}

fn with_each_write(foot: Foot, object: u32, first: u32, count: u32) -> Result<Foot, Trap>
    ensures { (all : List Event) → AreBelow all → IsFootOf foot all → Adds (events_from Writes object first count) all result }
{
    if count == 1 {
        return with_write(foot, object, first);
    }
    with_writes(foot, object, first, count)
}

/// A read and a write behind it.
fn with_read_and_write(foot: Foot, object: u32, cell: u32) -> Result<Foot, Trap>
    ensures { (all : List Event) → AreBelow all → IsFootOf foot all → Adds (own Reads (object, cell) ∷ (own Writes (object, cell) ∷ [])) all result }
{
    match with_read(foot, object, cell) {
        Ok(foot) => with_write(foot, object, cell),
        Err(trap) => Err(trap),
    }
}

/// The same of a volatile object (5.1.2.3p2).
fn with_touch_and_write(foot: Foot, object: u32, cell: u32) -> Result<Foot, Trap>
    ensures { (all : List Event) → AreBelow all → IsFootOf foot all → Adds (own Touches (object, cell) ∷ (own Writes (object, cell) ∷ [])) all result }
{
    match with_touch(foot, object, cell) {
        Ok(foot) => with_write(foot, object, cell),
        Err(trap) => Err(trap),
    }
}

fn with_update(foot: Foot, object: u32, cell: u32, volatile: bool) -> Result<Foot, Trap>
    ensures { (all : List Event) → AreBelow all → IsFootOf foot all → Adds (events_of (Deeds.Update object cell volatile)) all result }
{
    if volatile {
        with_touch_and_write(foot, object, cell)
    } else {
        with_read_and_write(foot, object, cell)
    }
}

/// A node's own events beside those of its operands: U12.
fn added(foot: Foot, deeds: Deeds) -> Result<Foot, Trap>
    ensures { (all : List Event) → AreBelow all → IsFootOf foot all → Adds (events_of deeds) all result }
{
    match deeds {
        Deeds::Nothing => Ok(foot),
        Deeds::Read {
            object,
            first,
            count,
        } => with_each_read(foot, object, first, count),
        Deeds::Touch { object, cell } => with_touch(foot, object, cell),
        Deeds::Write {
            object,
            first,
            count,
        } => with_each_write(foot, object, first, count),
        Deeds::Update {
            object,
            cell,
            volatile,
        } => with_update(foot, object, cell, volatile),
    }
}

/// The same where the operands' footprint is kept, if there are any own events.
fn add_some(alloc: Global, foot: &mut Foot, deeds: Deeds) -> Result<(), Trap>
    ensures { (all : List Event) → AreBelow all → IsFootOf foot.old all → Adds (events_of deeds) all (placed foot.new result) }
{
    match added(mem::replace(foot, Foot::none(alloc)), deeds) {
        Ok(new) => {
            *foot = new;
            Ok(())
        }
        Err(trap) => Err(trap),
    }
}

#[inline]
pub(crate) fn add(alloc: Global, foot: &mut Foot, deeds: Deeds) -> Result<(), Trap>
    ensures { (all : List Event) → AreBelow all → IsFootOf foot.old all → Adds (events_of deeds) all (placed foot.new result) }
{
    match deeds {
        Deeds::Nothing => Ok(()),
        _ => add_some(alloc, foot, deeds),
    }
}

// ---- the own events of a node without operands

fn first_read(alloc: Global, object: u32, cell: u32) -> Result<Foot, Trap>
    ensures { Adds (own Reads (object, cell) ∷ []) [] result }
{
    match Foot::read(alloc, object, cell) {
        Ok(foot) => Ok(foot),
        Err(_) => Err(Trap::NoMemory),
    }
}

fn first_added(alloc: Global, deeds: Deeds) -> Result<Foot, Trap>
    ensures { Adds (events_of deeds) [] result }
{
    added(Foot::none(alloc), deeds)
}

fn first_reads(alloc: Global, object: u32, first: u32, count: u32) -> Result<Foot, Trap>
    ensures { Adds (events_from Reads object first count) [] result }
{
    if count == 1 {
        return first_read(alloc, object, first);
    }
    with_reads(Foot::none(alloc), object, first, count)
}

/// A node's own events where it has no operands. It has mostly none, or one read.
#[inline]
pub(crate) fn first_foot(alloc: Global, deeds: Deeds) -> Result<Foot, Trap>
    ensures { Adds (events_of deeds) [] result }
{
    match deeds {
        Deeds::Nothing => Ok(Foot::none(alloc)),
        Deeds::Read {
            object,
            first,
            count,
        } => first_reads(alloc, object, first, count),
        _ => first_added(alloc, deeds),
    }
}
