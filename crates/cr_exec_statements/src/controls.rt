// Controlling expressions (C11 6.8.4, 6.8.5).
ghost use Rattle.cr_meaning.specs.Meaning.{control_before, do_before};
ghost use Rattle.cr_exec_slices.specs.Shown.{Worked};
ghost use Rattle.cr_exec_world.specs.Worlds.{world_of};
ghost use Rattle.cr_exec_statements.specs.Kept.{value_in, Does};
ghost use Rattle.cr_exec_statements.specs.Parts.{controlled_by, counted_by};

use crate::kept::halted;
use cr_eval::{asked, integer};
use cr_exec_slices::Halted;
use cr_exec_turns::Held;
use cr_exec_world::World;
use cr_meaning::Value;

/// A controlling expression is an operation on its value: U15, U10.
#[inline]
fn controlled_by(world: &World, node: u32, value: &Value) -> Result<(), Halted>
    ensures { Worked (controlled_by node value.now (world_of world.now)) result (world_of world.now) }
{
    match asked(&world.store, value) {
        Ok(_) => Ok(()),
        Err(trap) => Err(halted(trap, node)),
    }
}

#[inline]
fn controlled(world: &World, node: u32, control: &Held) -> Result<(), Halted>
    ensures { Worked (controlled_by node (value_in control.now) (world_of world.now)) result (world_of world.now) }
{
    match control {
        Held::Part(part) => controlled_by(world, node, &part.value),
        _ => controlled_by(world, node, &Value::Nothing),
    }
}

/// Behind the controlling expression alone.
#[inline]
pub(crate) fn after_one(world: &World, node: u32, done: &[Held]) -> Result<(), Halted>
    ensures { Does (λ answers. control_before node answers (world_of world.now)) done.now result (world_of world.now) }
{
    match done {
        [control] => controlled(world, node, control),
        _ => Ok(()),
    }
}

/// Behind another part and the controlling expression.
#[inline]
pub(crate) fn after_two(world: &World, node: u32, done: &[Held]) -> Result<(), Halted>
    ensures { Does (λ answers. do_before node answers (world_of world.now)) done.now result (world_of world.now) }
{
    match done {
        [_, control] => controlled(world, node, control),
        _ => Ok(()),
    }
}

/// The controlling expression of a `switch` is an integer (6.8.4.2p1): U15.
#[inline]
pub(crate) fn counted(world: &World, node: u32, control: &Held) -> Result<(), Halted>
    ensures { Worked (counted_by node (value_in control.now) (world_of world.now)) result (world_of world.now) }
{
    let number = match control {
        Held::Part(part) => integer(&part.value),
        _ => integer(&Value::Nothing),
    };
    match number {
        Ok(_) => Ok(()),
        Err(trap) => Err(halted(trap, node)),
    }
}
