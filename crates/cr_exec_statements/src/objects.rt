// The objects that statements declare (C11 6.2.4, 6.7, 6.8).
ghost use Rattle.std.specs.Prelude.{◌≡◌, ℕ};
ghost use Rattle.cr_meaning.specs.Meaning.{switched, for_before, switch_before, block_before};
ghost use Rattle.cr_eval.specs.Table.{program_of};
ghost use Rattle.cr_exec_slices.specs.Shown.{Worked, TakesAtMostOne};
ghost use Rattle.cr_exec_world.specs.Worlds.{world_of};
ghost use Rattle.cr_exec_statements.specs.Kept.{Does};
ghost use Rattle.cr_exec_statements.specs.Sets.{unset_by};

use crate::controls::after_two;
use cr_eval::Table;
use cr_exec_slices::Halted;
use cr_exec_turns::Held;
use cr_exec_world::{World, clear, open, step};

/// A compound statement begins: N3.
#[inline]
pub(crate) fn block_before(
    table: &Table,
    world: &mut World,
    objects: &[u32],
    done: &[Held],
) -> Result<(), Halted>
    ensures work { Does (λ answers. block_before (program_of table.now) objects.now answers (world_of world.old)) done.now result (world_of world.new) }
    ensures steps { world.new.steps ≡ world.old.steps }
{
    if done.is_empty() {
        open(table, world, objects)
    } else {
        Ok(())
    }
}

/// A `for` begins, with the objects of its declaration; later its controlling expression is asked: N3, U15, U10.
#[inline]
pub(crate) fn for_before(
    table: &Table,
    world: &mut World,
    node: u32,
    objects: &[u32],
    done: &[Held],
) -> Result<(), Halted>
    ensures work { Does (λ answers. for_before (program_of table.now) node objects.now answers (world_of world.old)) done.now result (world_of world.new) }
    ensures steps { world.new.steps ≡ world.old.steps }
{
    if done.is_empty() {
        open(table, world, objects)
    } else {
        after_two(world, node, done)
    }
}

/// A `switch` has found its item: its body is a statement that is reached: N1, N3.
#[inline]
fn switched(table: &Table, world: &mut World, body: u32, objects: &[u32]) -> Result<(), Halted>
    ensures work { Worked (switched (program_of table.now) body objects.now (world_of world.old)) result (world_of world.new) }
    ensures steps { TakesAtMostOne world.old.steps world.new.steps }
{
    match step(world, body) {
        Ok(()) => open(table, world, objects),
        Err(halted) => Err(halted),
    }
}

#[inline]
pub(crate) fn switch_before(
    table: &Table,
    world: &mut World,
    body: u32,
    objects: &[u32],
    done: &[Held],
) -> Result<(), Halted>
    ensures work { Does (λ answers. switch_before (program_of table.now) body objects.now answers (world_of world.old)) done.now result (world_of world.new) }
    ensures steps { TakesAtMostOne world.old.steps world.new.steps }
{
    if done.len() == 1 {
        switched(table, world, body, objects)
    } else {
        Ok(())
    }
}

/// A declarator without initialiser: its object holds nothing again (6.2.4p6).
#[inline]
pub(crate) fn declare(world: &mut World, declared: u32) -> Result<(), Halted>
    ensures work { (node : ℕ) → Worked (unset_by node declared (world_of world.old)) result (world_of world.new) }
    ensures steps { world.new.steps ≡ world.old.steps }
{
    let Some(object) = world.names.find(declared) else {
        return Err(Halted::NoMemory);
    };
    match clear(&mut world.store, object) {
        Ok(()) => Ok(()),
        Err(_) => Err(Halted::NoMemory),
    }
}
