// The beginning of a call of a function of the program (C11 6.5.2.2, 6.9.1p10).
#![tactic(auto, using(cr_eval::proofs::Answering::answers, cr_exec_world::proofs::Working::worked, cr_exec_world::proofs::Working::unsaid, cr_exec_world::proofs::Working::left, cr_exec_world::proofs::Working::undefined))]

ghost use Rattle.std.specs.Prelude.{◌≡◌, List};
ghost use Rattle.std.specs.List.{AllZip};
ghost use Rattle.cr_eval.specs.Table.{program_of};
ghost use Rattle.cr_meaning.specs.World.{Answer, enter_object};
ghost use Rattle.cr_meaning.specs.Nodes.{entering, with_argument, enter_parameters, begun, called};
ghost use Rattle.cr_meaning.specs.Meaning.{call_before};
ghost use Rattle.cr_meaning.specs.declared.op.Callee.{Callee as SpecCallee};
ghost use Rattle.cr_meaning.specs.declared.op.Work.TheVariants.{Call};
ghost use Rattle.cr_exec_slices.specs.Shown.{Worked};
ghost use Rattle.cr_exec_turns.specs.Held.{shows};
ghost use Rattle.cr_exec_world.specs.Worlds.{world_of, halt_of};

use crate::clashes::clashes;
use crate::convert::arguments;
use cr_eval::Table;
use cr_eval_join::UNSEQUENCED;
use cr_exec_slices::Halted;
use cr_exec_turns::Held;
use cr_exec_world::{World, deeper, enter, spelled_for};
use cr_meaning::{Callee, Parameter, Value};
use cr_memory::{Cell, Trap};
use std::alloc::Global;

/// N2: so many calls run already.
pub const LEFT_BY_DEPTH: u8 = 2;

/// A case at a node, as the end of a run.
pub(crate) fn halted(trap: Trap, node: u32) -> Halted
    ensures { result ≡ halt_of trap node }
{
    match trap {
        Trap::Undefined(number) => Halted::Undefined(number, node),
        Trap::Left(number) => Halted::Left(number, node),
        Trap::NoMemory => Halted::NoMemory,
    }
}

/// A parameter is an object that begins with its argument: N3.
fn enter_parameter(
    table: &Table,
    world: &mut World,
    parameter: Parameter,
    value: &Value,
) -> Result<(), Halted>
    ensures work { Worked (entering (enter_object (world_of world.old) parameter.node (with_argument (program_of table.now) parameter value.now))) result (world_of world.new) }
    ensures steps { world.new.steps ≡ world.old.steps }
{
    let Some(shape) = spelled_for(table, parameter.node) else {
        return Err(Halted::NoMemory);
    };
    match value {
        Value::Number(_, number) => enter(world, parameter.node, shape, &[Cell::Number(*number)]),
        Value::Pointer(at) => enter(world, parameter.node, shape, &[Cell::Pointer(*at)]),
        Value::Cells(cells) => enter(world, parameter.node, shape, cells.as_slice()),
        Value::Nothing | Value::Place(_) => Err(Halted::NoMemory),
    }
}

/// One parameter after another: N3.
fn enter_parameters(
    table: &Table,
    world: &mut World,
    parameters: &[Parameter],
    values: &[Value],
) -> Result<(), Halted>
    ensures work { Worked (entering (enter_parameters (program_of table.now) (world_of world.old) parameters.now values.now)) result (world_of world.new) }
    ensures steps { world.new.steps ≡ world.old.steps }
{
    let mut left = parameters;
    let mut rest = values;
    while let Some((parameter, parameters)) = left.split_first() {
        let Some((value, more)) = rest.split_first() else {
            return Ok(());
        };
        match enter_parameter(table, world, *parameter, value) {
            Ok(()) => {
                left = parameters;
                rest = more;
            }
            Err(halted) => return Err(halted),
        }
    }
    Ok(())
}

/// A call begins with these values of its parameters: N2, N3.
fn begin(
    table: &Table,
    world: &mut World,
    node: u32,
    parameters: &[Parameter],
    values: &[Value],
) -> Result<(), Halted>
    ensures work { Worked (begun (program_of table.now) node parameters.now (world_of world.old) values.now) result (world_of world.new) }
    ensures steps { world.new.steps ≡ world.old.steps }
{
    if world.depth >= u64::from(table.limits.depth) {
        return Err(Halted::Left(LEFT_BY_DEPTH, node));
    }
    match deeper(world) {
        Ok(()) => enter_parameters(table, world, parameters, values),
        Err(halted) => Err(halted),
    }
}

fn called(
    alloc: Global,
    table: &Table,
    world: &mut World,
    node: u32,
    parameters: &[Parameter],
    done: &[Held],
) -> Result<(), Halted>
    ensures work { (callee : SpecCallee) (answers : List Answer) → AllZip shows done.now answers → Worked (called (program_of table.now) node (Call callee) parameters.now answers (world_of world.old)) result (world_of world.new) }
    ensures steps { world.new.steps ≡ world.old.steps }
{
    let Ok(found) = clashes(alloc, done) else {
        return Err(Halted::NoMemory);
    };
    if found {
        return Err(Halted::Undefined(UNSEQUENCED, node));
    }
    match arguments(alloc, &world.store, parameters, done) {
        Ok(values) => begin(table, world, node, parameters, &values),
        Err(trap) => Err(halted(trap, node)),
    }
}

/// A function of the program is called with these answers of its arguments: U12 between two of them, U15 of any, U10, N2, N3. `NoMemory`
/// is want of memory, or a call that no program of the subset has.
pub fn call_before(
    alloc: Global,
    table: &Table,
    world: &mut World,
    callee: &Callee,
    node: u32,
    done: &[Held],
) -> Result<(), Halted>
    ensures work { (answers : List Answer) → AllZip shows done.now answers → Worked (call_before (program_of table.now) node (Call callee.now) callee.now answers (world_of world.old)) result (world_of world.new) }
    ensures steps { world.new.steps ≡ world.old.steps }
{
    match callee {
        Callee::Function(parameters, _, _) => {
            called(alloc, table, world, node, parameters.as_slice(), done)
        }
        Callee::Printf(_) | Callee::Putchar | Callee::Exit | Callee::Abort => Err(Halted::NoMemory),
    }
}
