// The node's work, by the number of operands.
#![tactic(auto, using(crate::proofs::Parting::unsaid, crate::proofs::Parting::no_memory, crate::proofs::Parting::none_join))]

ghost use Rattle.std.specs.Prelude.{◌≡◌, ℕ, length, List, [], ◌∷◌, ◌++◌, OnOk, IfErr};
ghost use Rattle.std.specs.List.{AllZip};
ghost use Rattle.cr_eval.specs.Table.{program_of};
ghost use Rattle.cr_meaning.specs.World.{Answer};
ghost use Rattle.cr_meaning.specs.Nodes.{expression};
ghost use Rattle.cr_exec_slices.specs.Shown.{Leaves};
ghost use Rattle.cr_exec_turns.specs.Held.{shows};
ghost use Rattle.cr_exec_turns.specs.declared.held.Held.TheVariants.{Part as Kept};
ghost use Rattle.cr_exec_world.specs.Worlds.{world_of};
ghost use Rattle.cr_exec_expressions.specs.Halts.{Places};

use crate::held::halting;
use crate::named::without;
use cr_eval::Table;
use cr_eval_join::{Part, join_one, join_two};
use cr_exec_slices::Halted;
use cr_exec_stack::Stack;
use cr_exec_turns::Held;
use cr_exec_world::World;
use cr_meaning::Op;
use cr_memory::Trap;
use std::alloc::Global;

/// Puts an answer on the stack. The error is want of memory.
#[inline]
fn put(stack: &mut Stack<Held>, part: Part) -> Result<(), Trap>
    ensures done { OnOk result (stack.new.top.done ≡ stack.old.top.done ++ Kept part ∷ []) }
    ensures below { stack.new.below ≡ stack.old.below }
    ensures causes { IfErr result (λ trap. trap ≡ Trap.NoMemory) }
{
    match stack.give(Held::Part(part)) {
        Ok(()) => Ok(()),
        Err(_) => Err(Trap::NoMemory),
    }
}

/// A node without operands.
#[inline]
fn with_none(
    alloc: Global,
    table: &Table,
    world: &World,
    op: &Op,
    stack: &mut Stack<Held>,
) -> Result<(), Trap>
    requires { length stack.old.top.done ≡ 0 }
    ensures work { (node : ℕ) (answers : List Answer) → AllZip shows stack.old.top.done answers → Places (expression (program_of table.now) node op.now answers (world_of world.now)) (world_of world.now) node result stack.new.top.done }
    ensures below { stack.new.below ≡ stack.old.below }
{
    match without(alloc, table, world, op) {
        Ok(part) => put(stack, part),
        Err(trap) => Err(trap),
    }
}

/// A node with one operand evaluated.
#[inline]
fn with_one(
    alloc: Global,
    table: &Table,
    world: &mut World,
    op: &Op,
    stack: &mut Stack<Held>,
) -> Result<(), Trap>
    requires { length stack.old.top.done ≡ 1 }
    ensures work { (node : ℕ) (answers : List Answer) → AllZip shows stack.old.top.done answers → Places (expression (program_of table.now) node op.now answers (world_of world.old)) (world_of world.new) node result stack.new.top.done }
    ensures below { stack.new.below ≡ stack.old.below }
    ensures steps { world.new.steps ≡ world.old.steps }
{
    let Some(Held::Part(mut operand)) = stack.pop() else {
        return Err(Trap::NoMemory);
    };
    match join_one(alloc, table, &mut world.store, op, &mut operand) {
        Ok(()) => put(stack, operand),
        Err(trap) => Err(trap),
    }
}

/// A node with two operands evaluated.
#[inline]
fn with_two(
    alloc: Global,
    table: &Table,
    world: &mut World,
    op: &Op,
    stack: &mut Stack<Held>,
) -> Result<(), Trap>
    requires { length stack.old.top.done ≡ 2 }
    ensures work { (node : ℕ) (answers : List Answer) → AllZip shows stack.old.top.done answers → Places (expression (program_of table.now) node op.now answers (world_of world.old)) (world_of world.new) node result stack.new.top.done }
    ensures below { stack.new.below ≡ stack.old.below }
    ensures steps { world.new.steps ≡ world.old.steps }
{
    let Some(Held::Part(mut right)) = stack.pop() else {
        return Err(Trap::NoMemory);
    };
    let Some(Held::Part(mut left)) = stack.pop() else {
        return Err(Trap::NoMemory);
    };
    match join_two(alloc, table, &mut world.store, op, &mut left, &mut right) {
        Ok(()) => put(stack, left),
        Err(trap) => Err(trap),
    }
}

fn joined(
    alloc: Global,
    table: &Table,
    world: &mut World,
    op: &Op,
    stack: &mut Stack<Held>,
) -> Result<(), Trap>
    ensures work { (node : ℕ) (answers : List Answer) → AllZip shows stack.old.top.done answers → Places (expression (program_of table.now) node op.now answers (world_of world.old)) (world_of world.new) node result stack.new.top.done }
    ensures below { stack.new.below ≡ stack.old.below }
    ensures steps { world.new.steps ≡ world.old.steps }
{
    let count = stack.done().len();
    if count == 0 {
        with_none(alloc, table, world, op, stack)
    } else if count == 1 {
        with_one(alloc, table, world, op, stack)
    } else if count == 2 {
        with_two(alloc, table, world, op, stack)
    } else {
        Err(Trap::NoMemory)
    }
}

/// The work of an expression's node that is no call, on the answers of its operands, in whose place it puts its answer on the stack: U1 to
/// U15, N5, N6. `NoMemory` is want of memory, or operands that no program of the subset has.
pub fn expression(
    alloc: Global,
    table: &Table,
    world: &mut World,
    op: &Op,
    node: u32,
    stack: &mut Stack<Held>,
) -> Result<(), Halted>
    ensures work { (answers : List Answer) → AllZip shows stack.old.top.done answers → Leaves shows (expression (program_of table.now) node op.now answers (world_of world.old)) result stack.new.top.done (world_of world.new) }
    ensures below { stack.new.below ≡ stack.old.below }
    ensures steps { world.new.steps ≡ world.old.steps }
{
    let done = joined(alloc, table, world, op, stack);
    halting(node, done)
}
