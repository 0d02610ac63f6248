// Objects and their lifetimes (C11 6.2.4).
#![tactic(auto, using(crate::proofs::Working::worked, crate::proofs::Working::unsaid, crate::proofs::Working::left, crate::proofs::Working::undefined))]

ghost use Rattle.std.specs.Prelude.{◌≡◌, None, Some, ◌∷◌, IfErr, OnOk, MatchOption, IfSome};
ghost use Rattle.cr_memory.specs.Memory.{new_object};
ghost use Rattle.cr_meaning.specs.World.{enter_object, enter_all, bound, marked, left_by, closed, next};
ghost use Rattle.cr_meaning.specs.Language.{went};
ghost use Rattle.cr_meaning.specs.Nodes.{entering, deeper};
ghost use Rattle.cr_meaning.specs.Meaning.{opened};
ghost use Rattle.cr_eval.specs.Table.{program_of};
ghost use Rattle.cr_exec_slices.specs.Shown.{Worked};
ghost use Rattle.cr_exec_world.specs.Worlds.{world_of, made_by};

use crate::cells::write;
use crate::names::{Binding, Names};
use crate::world::World;
use cr_eval::Table;
use cr_exec_slices::Halted;
use cr_memory::{Cell, Guard, Scalar, Store, Trap};
use cr_rows::Row;
use cr_sequence::Times;

/// The kinds and guards of the cells of a node's object.
pub fn shape_for(table: &Table, node: u32) -> Option<&Times<(Scalar, Guard)>>
    ensures { IfSome result (λ shape. shape.now ≡ (program_of table.now).shape node) }
{
    table.shapes.as_slice().get(node as usize)
}

/// The same where they are spelled out: those of what is no array.
pub fn spelled_for(table: &Table, node: u32) -> Option<&[(Scalar, Guard)]>
    ensures { IfSome result (λ shape. shape.now ≡ (program_of table.now).shape node) }
{
    match shape_for(table, node) {
        Some(shape) => shape.as_slice(),
        None => None,
    }
}

/// The object of this number has been entered for a node.
fn bind(world: &mut World, node: u32, object: u32) -> Result<(), Halted>
    ensures bound { OnOk result (world_of world.new ≡ record (world_of world.old) { bindings = bound node object ∷ (world_of world.old).bindings }) }
    ensures causes { IfErr result (λ halted. halted ≡ Halted.NoMemory) }
    ensures steps { world.new.steps ≡ world.old.steps }
{
    match world.names.bind(node, object) {
        Ok(()) => Ok(()),
        Err(_) => Err(Halted::NoMemory),
    }
}

/// An object is entered for a node, its cells zero or null where `zero`, and else unset: N3.
fn enter_new(
    world: &mut World,
    node: u32,
    shape: &Times<(Scalar, Guard)>,
    zero: bool,
) -> Result<(), Halted>
    ensures work { Worked (entering (enter_object (world_of world.old) node (new_object zero shape.now))) result (world_of world.new) }
    ensures steps { world.new.steps ≡ world.old.steps }
{
    let (one, times) = shape.parts();
    match world.store.enter_times(one, times, zero) {
        Ok(object) => bind(world, node, object),
        Err(Trap::Left(number)) => Err(Halted::Left(number, node)),
        Err(_) => Err(Halted::NoMemory),
    }
}

/// An object that begins with these cells is entered for a node: N3.
pub fn enter(
    world: &mut World,
    node: u32,
    shape: &[(Scalar, Guard)],
    cells: &[Cell],
) -> Result<(), Halted>
    ensures work { Worked (entering (enter_object (world_of world.old) node (record { cells = cells.now; shape = shape.now }))) result (world_of world.new) }
    ensures steps { world.new.steps ≡ world.old.steps }
{
    if cells.len() != shape.len() {
        return Err(Halted::NoMemory);
    }
    match world.store.enter(shape, false) {
        Ok(object) => match write(&mut world.store, object, 0, cells) {
            Ok(()) => bind(world, node, object),
            Err(_) => Err(Halted::NoMemory),
        },
        Err(Trap::Left(number)) => Err(Halted::Left(number, node)),
        Err(_) => Err(Halted::NoMemory),
    }
}

/// The bytes of a literal, if the node is one.
fn literal_for(table: &Table, node: u32) -> Option<&Row<Cell>>
    ensures { MatchOption result ((program_of table.now).literal node ≡ None) (λ cells. (program_of table.now).literal node ≡ Some cells.now) }
{
    match table.literals.as_slice().get(node as usize) {
        Some(Some(cells)) => Some(cells),
        Some(None) | None => None,
    }
}

/// An object of static duration or a literal, or one of automatic duration, is entered for its node: N3.
fn enter_made(table: &Table, world: &mut World, node: u32, is_static: bool) -> Result<(), Halted>
    ensures work { Worked (entering (enter_object (world_of world.old) node (made_by is_static (program_of table.now) node))) result (world_of world.new) }
    ensures steps { world.new.steps ≡ world.old.steps }
{
    let Some(shape) = shape_for(table, node) else {
        return Err(Halted::NoMemory);
    };
    if !is_static {
        return enter_new(world, node, shape, false);
    }
    match literal_for(table, node) {
        Some(cells) => match shape.as_slice() {
            Some(shape) => enter(world, node, shape, cells.as_slice()),
            None => Err(Halted::NoMemory),
        },
        None => enter_new(world, node, shape, true),
    }
}

/// One object after another, in the order of the nodes: N3.
pub fn enter_each(
    table: &Table,
    world: &mut World,
    nodes: &[u32],
    is_static: bool,
) -> Result<(), Halted>
    ensures work { Worked (entering (enter_all (made_by is_static (program_of table.now)) (world_of world.old) nodes.now)) result (world_of world.new) }
    ensures steps { world.new.steps ≡ world.old.steps }
{
    let mut rest = nodes;
    while let [node, more @ ..] = rest {
        match enter_made(table, world, *node, is_static) {
            Ok(()) => rest = more,
            Err(halted) => return Err(halted),
        }
    }
    Ok(())
}

/// A block or a call begins.
pub fn mark(world: &mut World) -> Result<(), Halted>
    ensures work { Worked (went next (marked (world_of world.old))) result (world_of world.new) }
    ensures steps { world.new.steps ≡ world.old.steps }
{
    match world.names.mark() {
        Ok(()) => Ok(()),
        Err(_) => Err(Halted::NoMemory),
    }
}

/// One call more runs.
pub fn deeper(world: &mut World) -> Result<(), Halted>
    ensures work { Worked (went next (deeper (world_of world.old))) result (world_of world.new) }
    ensures steps { world.new.steps ≡ world.old.steps }
{
    let Some(depth) = world.depth.checked_add(1) else {
        return Err(Halted::NoMemory);
    };
    world.depth = depth;
    mark(world)
}

/// A block begins, with its objects of automatic duration: N3.
pub fn open(table: &Table, world: &mut World, nodes: &[u32]) -> Result<(), Halted>
    ensures work { Worked (opened (program_of table.now) nodes.now (world_of world.old)) result (world_of world.new) }
    ensures steps { world.new.steps ≡ world.old.steps }
{
    match mark(world) {
        Ok(()) => enter_each(table, world, nodes, false),
        Err(halted) => Err(halted),
    }
}

/// The lifetimes of the objects entered since the last mark end.
fn leave(store: &mut Store, names: &mut Names) -> Result<(), Trap>
    ensures left { OnOk result (((left_by store.old names.old).0 ≡ store.new) × ((left_by store.old names.old).1 ≡ names.new)) }
    ensures causes { IfErr result (λ trap. trap ≡ Trap.NoMemory) }
{
    loop {
        match names.pop() {
            Some(Binding::Bound(_, object)) => {
                if !store.is_live(object) {
                    return Err(Trap::NoMemory);
                }
                store.leave(object);
            }
            Some(Binding::Mark) => return Ok(()),
            None => return Ok(()),
        }
    }
}

/// A block or a call ends, and with it the lifetimes of its objects.
pub fn close(world: &mut World) -> Result<(), Halted>
    ensures work { Worked (went next (closed (world_of world.old))) result (world_of world.new) }
    ensures steps { world.new.steps ≡ world.old.steps }
{
    match leave(&mut world.store, &mut world.names) {
        Ok(()) => Ok(()),
        Err(_) => Err(Halted::NoMemory),
    }
}
