// The own work of statements, declarations and the whole program.
ghost use Rattle.std.specs.Prelude.{◌≡◌, List};
ghost use Rattle.std.specs.List.{AllZip};
ghost use Rattle.cr_meaning.specs.World.{Answer};
ghost use Rattle.cr_meaning.specs.Meaning.{join_by};
ghost use Rattle.cr_eval.specs.Table.{program_of};
ghost use Rattle.cr_exec_slices.specs.Shown.{Joined};
ghost use Rattle.cr_exec_turns.specs.Held.{shows};
ghost use Rattle.cr_exec_world.specs.Worlds.{world_of};

use crate::ends::{block_end, do_end, for_end, if_end, return_end, switch_end, while_end};
use crate::initial::initialise;
use crate::kept::{last, passing};
use crate::objects::declare;
use crate::program::program_end;
use cr_eval::Table;
use cr_exec_slices::Halted;
use cr_exec_stack::Stack;
use cr_exec_turns::Held;
use cr_exec_world::World;
use cr_meaning::{Op, Work};
use std::alloc::Global;

/// The work of a statement's or a declaration's node, or of the whole program, behind its parts, on their answers, which it may take off
/// the stack: U10, U15. `NoMemory` is want of memory, or that the node is an expression or a call.
pub fn statement(
    alloc: Global,
    table: &Table,
    world: &mut World,
    op: &Op,
    node: u32,
    stack: &mut Stack<Held>,
) -> Result<Held, Halted>
    ensures work { (answers : List Answer) → AllZip shows stack.old.top.done answers
        → Joined shows (join_by (program_of table.now) node op.now op.now.work answers (world_of world.old)) result (world_of world.new) }
    ensures below { stack.new.below ≡ stack.old.below }
    ensures steps { world.new.steps ≡ world.old.steps }
{
    match &op.work {
        Work::Expression | Work::Declaration => Ok(Held::Next),
        Work::If => if_end(world, node, stack),
        Work::While => while_end(world, node, stack),
        Work::Do => do_end(world, node, stack),
        Work::For(_, _, _, _, _) => for_end(world, node, stack),
        Work::Switch(_, _, _, _, _, _) => switch_end(world, node, stack),
        Work::Block(_, _) => block_end(world, stack),
        Work::Labelled => Ok(last(stack)),
        Work::Break => Ok(Held::Broke),
        Work::Continue => Ok(Held::Continued),
        Work::Goto(label) => Ok(Held::Jumped(*label)),
        Work::Return(form) => return_end(alloc, world, node, *form, stack.done()),
        Work::Declare(declared) => passing(declare(world, *declared)),
        Work::Initialise(declared, lines) => passing(initialise(
            alloc,
            table,
            world,
            *declared,
            lines.as_slice(),
            stack.done(),
        )),
        Work::Program(_, _, _, _) => Ok(program_end(stack)),
        _ => Err(Halted::NoMemory),
    }
}
