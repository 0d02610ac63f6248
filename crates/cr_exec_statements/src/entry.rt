// Work before a part (C11 6.8, 5.1.2).
ghost use Rattle.std.specs.Prelude.{List};
ghost use Rattle.std.specs.List.{AllZip};
ghost use Rattle.cr_meaning.specs.World.{Answer};
ghost use Rattle.cr_meaning.specs.Meaning.{before_by};
ghost use Rattle.cr_eval.specs.Table.{program_of};
ghost use Rattle.cr_exec_slices.specs.Shown.{Worked, TakesAtMostOne};
ghost use Rattle.cr_exec_turns.specs.Held.{shows};
ghost use Rattle.cr_exec_world.specs.Worlds.{world_of};

use crate::controls::{after_one, after_two};
use crate::objects::{block_before, for_before, switch_before};
use crate::program::program_before;
use cr_eval::Table;
use cr_exec_slices::Halted;
use cr_exec_turns::Held;
use cr_exec_world::World;
use cr_meaning::{Op, Work};

/// The work of a node before a part, after these answers of others: a controlling expression is asked (U15, U10), and a block, a `for`,
/// a `switch` and main begin (N1, N3). A `switch` takes a step for its body. `NoMemory` is want of memory, or that the node is a call.
pub fn before(
    table: &Table,
    world: &mut World,
    op: &Op,
    node: u32,
    done: &[Held],
) -> Result<(), Halted>
    ensures work { (answers : List Answer) → AllZip shows done.now answers
        → Worked (before_by (program_of table.now) node op.now.work answers (world_of world.old)) result (world_of world.new) }
    ensures steps { TakesAtMostOne world.old.steps world.new.steps }
{
    match &op.work {
        Work::If | Work::While => after_one(world, node, done),
        Work::Do => after_two(world, node, done),
        Work::For(objects, _, _, _, _) => for_before(table, world, node, objects.as_slice(), done),
        Work::Switch(_, body, objects, _, _, _) => {
            switch_before(table, world, *body, objects.as_slice(), done)
        }
        Work::Block(objects, _) => block_before(table, world, objects.as_slice(), done),
        Work::Program(objects, parameters, strings, _) => program_before(
            table,
            world,
            objects.as_slice(),
            parameters.as_slice(),
            *strings,
            done,
        ),
        Work::Call(_) => Err(Halted::NoMemory),
        _ => Ok(()),
    }
}
