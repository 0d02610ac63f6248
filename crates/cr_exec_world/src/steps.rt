// Steps.
#![tactic(auto, using(crate::proofs::Working::worked, crate::proofs::Working::unsaid, crate::proofs::Working::left, crate::proofs::Working::undefined))]

ghost use Rattle.std.specs.Prelude.{◌≡◌, slice_get};
ghost use Rattle.cr_meaning.specs.Meaning.{takes_step, reached, reached_by, stepped};
ghost use Rattle.cr_meaning.specs.Nodes.{Act};
ghost use Rattle.cr_eval.specs.Table.{program_of};
ghost use Rattle.cr_exec_slices.specs.Shown.{Worked, TakesAtMostOne};
ghost use Rattle.cr_exec_world.specs.Worlds.{world_of};

use crate::world::World;
use cr_eval::Table;
use cr_exec_slices::Halted;
use cr_meaning::Work;

/// N1: no step is left.
pub const NO_STEP: u8 = 1;

fn takes_step(work: &Work) -> bool
    ensures { result ≡ takes_step work.now }
{
    match work {
        Work::Declaration | Work::Declare(_) | Work::Initialise(_, _) => false,
        _ => true,
    }
}

/// A step, if one is left: N1.
pub fn step(world: &mut World, node: u32) -> Result<(), Halted>
    ensures work { Worked (stepped node (world_of world.old) (world_of world.old).steps) result (world_of world.new) }
    ensures steps { TakesAtMostOne (world_of world.old).steps (world_of world.new).steps }
{
    match world.steps.checked_sub(1) {
        Some(left) => {
            world.steps = left;
            Ok(())
        }
        None => Err(Halted::Left(NO_STEP, node)),
    }
}

/// A node is reached: an expression or a statement takes a step.
pub fn reach(table: &Table, world: &mut World, node: u32) -> Result<(), Halted>
    ensures work { Worked (reached node (slice_get (program_of table.now).ops node) (world_of world.old)) result (world_of world.new) }
    ensures steps { TakesAtMostOne (world_of world.old).steps (world_of world.new).steps }
{
    match table.ops.as_slice().get(node as usize) {
        Some(op) => {
            if takes_step(&op.work) {
                step(world, node)
            } else {
                Ok(())
            }
        }
        None => Err(Halted::NoMemory),
    }
}
