// A call of the library (C11 7.21.6.3, 7.21.7.7, 7.22.4.1, 7.22.4.4).
#![tactic(auto, using(cr_eval::proofs::Answering::answers, cr_exec_world::proofs::Working::worked, cr_exec_world::proofs::Working::unsaid, cr_exec_world::proofs::Working::left, cr_exec_world::proofs::Working::undefined))]

ghost use Rattle.std.specs.Prelude.{◌≡◌, List};
ghost use Rattle.cr_exec_library.specs.Printing.{called};
ghost use Rattle.cr_eval.specs.Answers.{Answers};
ghost use Rattle.cr_eval.specs.Table.{program_of};
ghost use Rattle.cr_meaning.specs.Library.{printf_of, putchar_of, exit_of};
ghost use Rattle.cr_meaning.specs.World.{Answer};
ghost use Rattle.cr_meaning.specs.Nodes.{library, values, all_events};
ghost use Rattle.cr_meaning.specs.declared.op.Work.TheVariants.{Call};
ghost use Rattle.cr_exec_world.specs.Worlds.{world_of};
ghost use Rattle.cr_exec_calls.specs.Ends.{Gives, with_output, end_of, value_at};

use crate::before::halted;
use cr_eval::Table;
use cr_exec_library::{exit, printf, putchar};
use cr_exec_slices::Halted;
use cr_exec_world::World;
use cr_meaning::{Callee, Value};
use cr_memory::Trap;
use std::alloc::Global;

/// The status of a program that `abort` ended: 128 and the number of its signal.
pub const ABORTED: u8 = 134;

fn print(
    alloc: Global,
    table: &Table,
    world: &mut World,
    texts: &[bool],
    given: &[Value],
) -> Result<Value, Trap>
    ensures value { Answers (printf_of (program_of table.now) (world_of world.old) texts.now given.now) (called world.new.output.items result) }
    ensures world { world_of world.new ≡ with_output (world_of world.old) world.new.output.items }
{
    match given.split_first() {
        Some((format, rest)) => printf(
            alloc,
            table,
            &world.store,
            &mut world.output,
            texts,
            format,
            rest,
        ),
        None => Err(Trap::NoMemory),
    }
}

fn put(table: &Table, world: &mut World, given: &[Value]) -> Result<Value, Trap>
    ensures value { Answers (putchar_of (program_of table.now) (world_of world.old) given.now) (called world.new.output.items result) }
    ensures world { world_of world.new ≡ with_output (world_of world.old) world.new.output.items }
{
    match given {
        [value] => putchar(table, &mut world.output, value),
        _ => Err(Trap::NoMemory),
    }
}

fn leave(given: &[Value]) -> Result<u8, Trap>
    ensures { Answers (exit_of given.now) result }
{
    match given {
        [value] => exit(value),
        _ => Err(Trap::NoMemory),
    }
}

fn ended(node: u32, status: Result<u8, Trap>) -> Halted
    ensures { result ≡ end_of node status }
{
    match status {
        Ok(status) => Halted::Exited(status),
        Err(trap) => halted(trap, node),
    }
}

fn given_at(node: u32, value: Result<Value, Trap>) -> Result<Value, Halted>
    ensures { result ≡ value_at node value }
{
    match value {
        Ok(value) => Ok(value),
        Err(trap) => Err(halted(trap, node)),
    }
}

/// A call of the library with arguments of these values.
pub(crate) fn library(
    alloc: Global,
    table: &Table,
    world: &mut World,
    callee: &Callee,
    node: u32,
    given: &[Value],
) -> Result<Value, Halted>
    ensures work { (answers : List Answer) → values answers ≡ given.now
        → Gives (library (program_of table.now) node (Call callee.now) callee.now answers (world_of world.old)) (all_events (Call callee.now) answers) result (world_of world.new) }
    ensures steps { world.new.steps ≡ world.old.steps }
{
    match callee {
        Callee::Printf(texts) => {
            given_at(node, print(alloc, table, world, texts.as_slice(), given))
        }
        Callee::Putchar => given_at(node, put(table, world, given)),
        Callee::Exit => Err(ended(node, leave(given))),
        Callee::Abort => Err(Halted::Exited(ABORTED)),
        Callee::Function(_, _, _) => Err(Halted::NoMemory),
    }
}
