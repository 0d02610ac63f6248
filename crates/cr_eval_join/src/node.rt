ghost use Rattle.std.specs.Prelude.{◌≡◌, ℕ, true, false, List, [], ◌∷◌, Some, None};
ghost use Rattle.cr_footprint.specs.Foot.{sets};
ghost use Rattle.cr_meaning.specs.Events.{Event};
ghost use Rattle.cr_meaning.specs.World.{World, part};
ghost use Rattle.cr_meaning.specs.Nodes.{expression};
ghost use Rattle.cr_eval.specs.Answers.{IsFound};
ghost use Rattle.cr_eval.specs.Table.{program_of};
ghost use Rattle.cr_eval_join.specs.Parts.{IsFootOf};
ghost use Rattle.cr_eval_join.specs.Feet.{AreBelow, placed};
ghost use Rattle.cr_eval_join.specs.Joins.{Joins, Finishes, FinishesBy, parted, is_sequence};

use crate::feet::{add, first_foot, sequence, trap_of};
use crate::part::Part;
use cr_eval::{Did, Table, work_none, work_one, work_two};
use cr_footprint::Foot;
use cr_meaning::{Op, Work};
use cr_memory::{Store, Trap};
use std::alloc::Global;
use std::mem;

// ---- own work, once it is done

/// What the work of a node without operands gave, with its own events.
#[inline]
fn begun_by(alloc: Global, did: Did) -> Result<Part, Trap>
    ensures { FinishesBy did [] result }
{
    match first_foot(alloc, did.deeds) {
        Ok(foot) => Ok(Part {
            value: did.value,
            foot,
        }),
        Err(trap) => Err(trap),
    }
}

#[inline]
fn begun(alloc: Global, did: Result<Did, Trap>) -> Result<Part, Trap>
    ensures { Finishes [] did result }
{
    match did {
        Ok(did) => begun_by(alloc, did),
        Err(trap) => Err(trap),
    }
}

/// What a node's work gave takes the place of an operand with the footprint of all of them, with the node's own events beside those
/// of the operands: U12. A part is too large to be handed from call to call, so it stays where it is.
#[inline]
fn finish(alloc: Global, part: &mut Part, did: Result<Did, Trap>) -> Result<(), Trap>
    ensures { (all : List Event) → AreBelow all → IsFootOf part.old.foot all → Finishes all did (placed part.new result) }
{
    match did {
        Ok(did) => {
            part.value = did.value;
            add(alloc, &mut part.foot, did.deeds)
        }
        Err(trap) => Err(trap),
    }
}

/// The same of a node that has no events of its own.
#[inline]
fn settle(part: &mut Part, did: Result<Did, Trap>) -> Result<(), Trap>
    ensures { placed part.new result ≡ parted part.old.foot did }
{
    match did {
        Ok(did) => {
            part.value = did.value;
            Ok(())
        }
        Err(trap) => Err(trap),
    }
}

// ---- nodes by the number of their operands

fn bare(
    alloc: Global,
    table: &Table,
    store: &Store,
    op: &Op,
    object: Option<u32>,
) -> Result<Part, Trap>
    ensures { (world : World) (node : ℕ) → IsFound op.now.work world.bindings object
        → Joins (expression (program_of table.now) node op.now [] (record world { memory = store.now })) (record world { memory = store.now }) node result }
{
    begun(alloc, work_none(alloc, table, store, op, object))
}

/// An object's identifier or a string literal, whose object was entered (C11 6.5.1p2, p4): its place, or what reading it gives where
/// the node says so: U9 to U11, N5. `NoMemory` is want of memory, or a node that no program of the subset has.
pub fn named(
    alloc: Global,
    table: &Table,
    store: &Store,
    op: &Op,
    object: u32,
) -> Result<Part, Trap>
    ensures { (world : World) (node : ℕ) → IsFound op.now.work world.bindings (Some object)
        → Joins (expression (program_of table.now) node op.now [] (record world { memory = store.now })) (record world { memory = store.now }) node result }
{
    bare(alloc, table, store, op, Some(object))
}

/// Any other node without operands: a constant, an enumerator or `sizeof` (6.5.1p3, 6.5.3.4).
pub fn join_none(alloc: Global, table: &Table, store: &Store, op: &Op) -> Result<Part, Trap>
    ensures { (world : World) (node : ℕ) → IsFound op.now.work world.bindings None
        → Joins (expression (program_of table.now) node op.now [] (record world { memory = store.now })) (record world { memory = store.now }) node result }
{
    bare(alloc, table, store, op, None)
}

/// A node whose one operand is evaluated (6.5.2.3, 6.5.2.4, 6.5.3, 6.5.4), also `&&`, `||` and `?:` where no other is: the cases of
/// its own work, then U12 of its own events. Its answer takes the operand's place. `NoMemory` is want of memory, or an operand that no
/// program of the subset has. After an error the store and the operand are given up.
#[inline]
pub fn join_one(
    alloc: Global,
    table: &Table,
    store: &mut Store,
    op: &Op,
    operand: &mut Part,
) -> Result<(), Trap>
    ensures { (world : World) (node : ℕ) (events : List Event) → IsFootOf operand.old.foot events
        → Joins (expression (program_of table.now) node op.now (part operand.old.value events ∷ []) (record world { memory = store.old })) (record world { memory = store.new }) node (placed operand.new result) }
{
    let did = work_one(alloc, table, store, op, &operand.value);
    finish(alloc, operand, did)
}

#[inline]
fn is_sequence(work: &Work) -> bool
    ensures { result ≡ is_sequence work.now }
{
    match work {
        Work::Comma | Work::Conditional(_) | Work::LogicalAnd | Work::LogicalOr => true,
        _ => false,
    }
}

fn join_in_sequence(
    alloc: Global,
    table: &Table,
    store: &mut Store,
    op: &Op,
    left: &mut Part,
    right: &mut Part,
) -> Result<(), Trap>
    requires { is_sequence op.now.work ≡ true }
    ensures { (world : World) (node : ℕ) (one other : List Event) → IsFootOf left.old.foot one → IsFootOf right.old.foot other
        → Joins (expression (program_of table.now) node op.now (part left.old.value one ∷ (part right.old.value other ∷ [])) (record world { memory = store.old })) (record world { memory = store.new }) node (placed left.new result) }
{
    let one = mem::replace(&mut left.foot, Foot::none(alloc));
    let other = mem::replace(&mut right.foot, Foot::none(alloc));
    match sequence(one, other) {
        Ok(foot) => {
            left.foot = foot;
            let did = work_two(alloc, table, store, op, &left.value, &right.value);
            settle(left, did)
        }
        Err(trap) => Err(trap),
    }
}

#[inline]
fn join_beside(
    alloc: Global,
    table: &Table,
    store: &mut Store,
    op: &Op,
    left: &mut Part,
    right: &mut Part,
) -> Result<(), Trap>
    requires { is_sequence op.now.work ≡ false }
    ensures { (world : World) (node : ℕ) (one other : List Event) → IsFootOf left.old.foot one → IsFootOf right.old.foot other
        → Joins (expression (program_of table.now) node op.now (part left.old.value one ∷ (part right.old.value other ∷ [])) (record world { memory = store.old })) (record world { memory = store.new }) node (placed left.new result) }
{
    let one = mem::replace(&mut left.foot, Foot::none(alloc));
    let other = mem::replace(&mut right.foot, Foot::none(alloc));
    match one.beside(other) {
        Ok(foot) => {
            left.foot = foot;
            let did = work_two(alloc, table, store, op, &left.value, &right.value);
            finish(alloc, left, did)
        }
        Err(end) => Err(trap_of(end)),
    }
}

/// A node whose two operands are evaluated (6.5.2.1, 6.5.5 to 6.5.17), of `?:` the first and the chosen one: U12 between the
/// operands, then the cases of its own work, then U12 of its own events. Its answer takes the left operand's place. `NoMemory` is want
/// of memory, or operands that no program of the subset has. After an error the store and the left operand are given up, and the right
/// one always.
#[inline]
pub fn join_two(
    alloc: Global,
    table: &Table,
    store: &mut Store,
    op: &Op,
    left: &mut Part,
    right: &mut Part,
) -> Result<(), Trap>
    ensures { (world : World) (node : ℕ) (one other : List Event) → IsFootOf left.old.foot one → IsFootOf right.old.foot other
        → Joins (expression (program_of table.now) node op.now (part left.old.value one ∷ (part right.old.value other ∷ [])) (record world { memory = store.old })) (record world { memory = store.new }) node (placed left.new result) }
{
    if is_sequence(&op.work) {
        join_in_sequence(alloc, table, store, op, left, right)
    } else {
        join_beside(alloc, table, store, op, left, right)
    }
}
