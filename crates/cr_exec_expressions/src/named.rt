// Nodes without operands (C11 6.5.1).
#![tactic(auto, using(crate::proofs::Parting::unsaid, crate::proofs::Parting::no_memory, crate::proofs::Parting::none_join))]

ghost use Rattle.std.specs.Prelude.{◌≡◌, ℕ, [], Some};
ghost use Rattle.cr_eval.specs.Table.{program_of};
ghost use Rattle.cr_eval_join.specs.Joins.{Joins};
ghost use Rattle.cr_meaning.specs.Nodes.{expression};
ghost use Rattle.cr_exec_world.specs.Worlds.{world_of};
ghost use Rattle.cr_exec_expressions.specs.Halts.{object_of};

use cr_eval::Table;
use cr_eval_join::{Part, join_none, named};
use cr_exec_world::World;
use cr_meaning::{Op, Work};
use cr_memory::Trap;
use std::alloc::Global;

/// The node whose object an identifier or a literal stands for.
#[inline]
fn object_of(work: &Work) -> Option<u32>
    ensures { result ≡ object_of work.now }
{
    match work {
        Work::Object(declared, _) => Some(*declared),
        _ => None,
    }
}

/// An identifier or a literal of this node's object.
fn object(alloc: Global, table: &Table, world: &World, op: &Op, declared: u32) -> Result<Part, Trap>
    requires { object_of op.now.work ≡ Some declared }
    ensures { (node : ℕ) → Joins (expression (program_of table.now) node op.now [] (world_of world.now)) (world_of world.now) node result }
{
    match world.names.find(declared) {
        Some(object) => named(alloc, table, &world.store, op, object),
        None => Err(Trap::NoMemory),
    }
}

/// A node without operands: an object's, a constant, an enumerator or `sizeof`.
#[inline]
pub(crate) fn without(alloc: Global, table: &Table, world: &World, op: &Op) -> Result<Part, Trap>
    ensures { (node : ℕ) → Joins (expression (program_of table.now) node op.now [] (world_of world.now)) (world_of world.now) node result }
{
    match object_of(&op.work) {
        Some(declared) => object(alloc, table, world, op, declared),
        None => join_none(alloc, table, &world.store, op),
    }
}
