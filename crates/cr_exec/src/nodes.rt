// The work of single nodes: each goes to the crate of its kind.
ghost use Rattle.std.specs.Prelude.{◌≡◌, List};
ghost use Rattle.std.specs.List.{AllZip};
ghost use Rattle.cr_eval.specs.Table.{program_of};
ghost use Rattle.cr_meaning.specs.Nodes.{Act};
ghost use Rattle.cr_meaning.specs.World.{Answer, World as SpecWorld};
ghost use Rattle.cr_meaning.specs.Meaning.{before_by, join_by};
ghost use Rattle.cr_exec_slices.specs.Shown.{Worked, Joined, Leaves, TakesAtMostOne};
ghost use Rattle.cr_exec_turns.specs.Held.{shows};
ghost use Rattle.cr_exec_world.specs.Worlds.{world_of};
ghost use Rattle.cr_exec.specs.Runs.{IsNoCall};

use crate::running::Running;
use cr_eval::Table;
use cr_eval_join::Part;
use cr_exec_calls::{call_before, call_end};
use cr_exec_expressions::expression;
use cr_exec_slices::{Halted, Nodes, Way};
use cr_exec_stack::Stack;
use cr_exec_statements::{before, statement};
use cr_exec_turns::{Held, is_expression, next};
use cr_exec_world::{World, reach};
use cr_footprint::Foot;
use cr_ints::IntKind;
use cr_meaning::{Op, Value, Work};
use std::alloc::Global;

fn before_op(
    alloc: Global,
    table: &Table,
    world: &mut World,
    op: &Op,
    node: u32,
    done: &[Held],
) -> Result<(), Halted>
    ensures work { (answers : List Answer) → AllZip shows done.now answers
        → Worked (before_by (program_of table.now) node op.now.work answers (world_of world.old)) result (world_of world.new) }
    ensures steps { TakesAtMostOne world.old.steps world.new.steps }
{
    match &op.work {
        Work::Call(callee) => call_before(alloc, table, world, callee, node, done),
        _ => before(table, world, op, node, done),
    }
}

/// Puts the answer of a node in the place of its parts' answers. The error is its own, or want of memory.
fn put(stack: &mut Stack<Held>, held: Result<Held, Halted>) -> Result<(), Halted>
    ensures work { (act : Act) (world : SpecWorld) → Joined shows act held world → Leaves shows act result stack.new.top.done world }
    ensures below { stack.new.below ≡ stack.old.below }
{
    match held {
        Ok(held) => {
            stack.keep(0);
            match stack.give(held) {
                Ok(()) => Ok(()),
                Err(_) => Err(Halted::NoMemory),
            }
        }
        Err(halted) => Err(halted),
    }
}

#[inline]
fn join_other(
    alloc: Global,
    table: &Table,
    world: &mut World,
    op: &Op,
    node: u32,
    stack: &mut Stack<Held>,
) -> Result<(), Halted>
    requires { IsNoCall op.now.work }
    ensures work { (answers : List Answer) → AllZip shows stack.old.top.done answers
        → Leaves shows (join_by (program_of table.now) node op.now op.now.work answers (world_of world.old)) result stack.new.top.done (world_of world.new) }
    ensures below { stack.new.below ≡ stack.old.below }
    ensures steps { world.new.steps ≡ world.old.steps }
{
    if is_expression(&op.work) {
        return expression(alloc, table, world, op, node, stack);
    }
    let held = statement(alloc, table, world, op, node, stack);
    put(stack, held)
}

#[inline]
fn join_op(
    alloc: Global,
    table: &Table,
    world: &mut World,
    op: &Op,
    node: u32,
    stack: &mut Stack<Held>,
) -> Result<(), Halted>
    ensures work { (answers : List Answer) → AllZip shows stack.old.top.done answers
        → Leaves shows (join_by (program_of table.now) node op.now op.now.work answers (world_of world.old)) result stack.new.top.done (world_of world.new) }
    ensures below { stack.new.below ≡ stack.old.below }
    ensures steps { world.new.steps ≡ world.old.steps }
{
    match &op.work {
        Work::Call(callee) => {
            let held = call_end(alloc, table, world, callee, node, stack);
            put(stack, held)
        }
        _ => join_other(alloc, table, world, op, node, stack),
    }
}

impl<'a> Nodes for Running<'a> {
    type Held = Held;

    ghost program = { λ running. program_of running.table.now };

    ghost world = { λ running. world_of running.world };

    ghost shows = { shows };

    // Nobody watches.
    ghost has_seen = { λ running marks. Unit {0} };

    #[inline]
    fn steps(&self) -> u64 {
        self.world.steps
    }

    #[inline]
    fn reach(&mut self, node: u32) -> Result<(), Halted> {
        reach(self.table, &mut self.world, node)
    }

    #[inline]
    fn next(&self, node: u32, done: &[Held]) -> Way {
        match self.table.ops.as_slice().get(node as usize) {
            Some(op) => next(op, done),
            None => Way::Unknown,
        }
    }

    fn before(&mut self, node: u32, done: &[Held]) -> Result<(), Halted> {
        match self.table.ops.as_slice().get(node as usize) {
            Some(op) => before_op(self.alloc, self.table, &mut self.world, op, node, done),
            None => Err(Halted::NoMemory),
        }
    }

    #[inline]
    fn join(&mut self, stack: &mut Stack<Held>) -> Result<(), Halted> {
        let node = stack.node();
        match self.table.ops.as_slice().get(node as usize) {
            Some(op) => join_op(self.alloc, self.table, &mut self.world, op, node, stack),
            None => Err(Halted::NoMemory),
        }
    }

    fn passed(&self) -> Held {
        Held::Next
    }

    fn absent(&self) -> Held {
        Held::Part(Part {
            value: Value::Number(IntKind::Int, 1),
            foot: Foot::none(self.alloc),
        })
    }
}
