// The end of a call.
#![tactic(auto, using(cr_eval::proofs::Answering::answers, cr_exec_world::proofs::Working::worked, cr_exec_world::proofs::Working::unsaid, cr_exec_world::proofs::Working::left, cr_exec_world::proofs::Working::undefined))]

ghost use Rattle.std.specs.Prelude.{◌≡◌, List, option_to_list, ◌++◌};
ghost use Rattle.std.specs.List.{AllZip};
ghost use Rattle.cr_eval.specs.Table.{program_of};
ghost use Rattle.cr_meaning.specs.Language.{went};
ghost use Rattle.cr_meaning.specs.World.{Answer, next};
ghost use Rattle.cr_meaning.specs.Nodes.{ended_call, shallower, call_end};
ghost use Rattle.cr_meaning.specs.declared.op.Callee.{Callee as SpecCallee};
ghost use Rattle.cr_meaning.specs.declared.op.Work.TheVariants.{Call};
ghost use Rattle.cr_exec_slices.specs.Shown.{Worked, Joined};
ghost use Rattle.cr_exec_turns.specs.Held.{shows};
ghost use Rattle.cr_exec_world.specs.Worlds.{world_of};
ghost use Rattle.cr_exec_calls.specs.Ends.{EndsWith, held_of, call_library};

use crate::before::halted;
use crate::library::library;
use crate::taken::take_arguments;
use cr_eval::Table;
use cr_eval_join::Part;
use cr_exec_slices::Halted;
use cr_exec_stack::Stack;
use cr_exec_turns::Held;
use cr_exec_world::{World, close};
use cr_footprint::Foot;
use cr_ints::IntKind;
use cr_meaning::{Callee, Value};
use std::alloc::Global;

/// The value of a call whose body has answered so: that of the `return`. Where the closing brace was reached there is none, but of
/// `main` that gives 0 (C11 5.1.2.2.3p1, 6.9.1p12).
fn result_of(is_main: bool, last: Option<Held>) -> Option<Value>
    ensures { EndsWith is_main last result }
{
    match last {
        Some(Held::Returned(value)) => Some(value),
        Some(Held::Next) => Some(if is_main {
            Value::Number(IntKind::Int, 0)
        } else {
            Value::Nothing
        }),
        _ => None,
    }
}

/// One call fewer runs, and the lifetimes of its parameters end.
fn shallower(world: &mut World) -> Result<(), Halted>
    ensures work { Worked (went next (shallower (world_of world.old))) result (world_of world.new) }
    ensures steps { world.new.steps ≡ world.old.steps }
{
    match close(world) {
        Ok(()) => {
            world.depth = world.depth.saturating_sub(1);
            Ok(())
        }
        Err(halted) => Err(halted),
    }
}

fn function_end(
    alloc: Global,
    world: &mut World,
    is_main: bool,
    stack: &mut Stack<Held>,
) -> Result<Held, Halted>
    ensures work { (callee : SpecCallee) (answers : List Answer) → AllZip shows stack.old.top.done answers
        → Joined shows (ended_call (Call callee) is_main answers (world_of world.old)) result (world_of world.new) }
    ensures below { stack.new.below ≡ stack.old.below }
    ensures steps { world.new.steps ≡ world.old.steps }
{
    let Some(value) = result_of(is_main, stack.pop()) else {
        return Err(Halted::NoMemory);
    };
    let Ok(taken) = take_arguments(alloc, stack) else {
        return Err(Halted::NoMemory);
    };
    match shallower(world) {
        Ok(()) => Ok(Held::Part(Part {
            value,
            foot: taken.foot,
        })),
        Err(halted) => Err(halted),
    }
}

fn held(foot: Foot, value: Result<Value, Halted>) -> Result<Held, Halted>
    ensures { result ≡ held_of foot value }
{
    match value {
        Ok(value) => Ok(Held::Part(Part { value, foot })),
        Err(halted) => Err(halted),
    }
}

fn library_end(
    alloc: Global,
    table: &Table,
    world: &mut World,
    callee: &Callee,
    node: u32,
    stack: &mut Stack<Held>,
) -> Result<Held, Halted>
    ensures work { (answers : List Answer) → AllZip shows stack.old.top.done answers
        → Joined shows (call_library (program_of table.now) node callee.now answers (world_of world.old)) result (world_of world.new) }
    ensures below { stack.new.below ≡ stack.old.below }
    ensures steps { world.new.steps ≡ world.old.steps }
{
    match take_arguments(alloc, stack) {
        Ok(taken) => held(
            taken.foot,
            library(alloc, table, world, callee, node, taken.values.as_slice()),
        ),
        Err(trap) => Err(halted(trap, node)),
    }
}

/// The end of a call, once the body of a function of the program has answered, or once the arguments of a function of the library are
/// evaluated; it takes their answers off the stack. Of the library: U12 between two arguments, U15, N5, the cases of `printf`, N4.
/// `NoMemory` is want of memory, or a call that no program of the subset has.
pub fn call_end(
    alloc: Global,
    table: &Table,
    world: &mut World,
    callee: &Callee,
    node: u32,
    stack: &mut Stack<Held>,
) -> Result<Held, Halted>
    ensures work { (answers : List Answer) → AllZip shows stack.old.top.done answers
        → Joined shows (call_end (program_of table.now) node (Call callee.now) callee.now answers (world_of world.old)) result (world_of world.new) }
    ensures below { stack.new.below ≡ stack.old.below }
    ensures steps { world.new.steps ≡ world.old.steps }
{
    match callee {
        Callee::Function(_, _, is_main) => function_end(alloc, world, *is_main, stack),
        _ => library_end(alloc, table, world, callee, node, stack),
    }
}
