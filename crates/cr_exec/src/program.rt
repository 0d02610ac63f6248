// The run of a whole program.
ghost use Rattle.std.specs.Prelude.{◌≡◌, [], true, false, ◌-◌, IfOk, IfSome};
ghost use Rattle.cr_eval.specs.Table.{program_of};
ghost use Rattle.cr_meaning.specs.Meaning.{Means, start_of, root_of, ended_with};
ghost use Rattle.cr_meaning.specs.declared.run.Run.{Run as SpecRun};
ghost use Rattle.cr_exec_world.specs.Worlds.{world_of};
ghost use Rattle.cr_exec.specs.Runs.{has_come, run_from, IsWatched, Looked};

use crate::running::Running;
use crate::watch::{Unseen, Watch, Watched};
use cr_cursor::Stop;
use cr_eval::Table;
use cr_exec_library::status_of;
use cr_exec_slices::{Halted, Outcome, run_nodes};
use cr_exec_turns::Held;
use cr_exec_world::{Names, World};
use cr_meaning::{Limits, Run, Value};
use cr_memory::Store;
use cr_rows::Row;
use std::alloc::{AllocError, Global};

/// The node of the whole program.
fn root_of(table: &Table) -> Option<u32>
    ensures { IfSome result (λ root. root ≡ root_of (program_of table.now)) }
{
    u32::try_from(table.ops.len().saturating_sub(1)).ok()
}

/// Nothing is there at first. The error is want of memory.
fn start(alloc: Global, table: &Table) -> Result<World, AllocError>
    ensures { IfOk result (λ world. world_of world ≡ start_of table.now.limits) }
{
    match Names::new(alloc, table.ops.len()) {
        Ok(names) => Ok(World {
            store: Store::new(alloc, table.limits.cells),
            output: Vec::new(alloc),
            steps: table.limits.steps,
            depth: 0,
            names,
        }),
        Err(_) => Err(AllocError),
    }
}

fn ended_with(limits: Limits, status: u8, world: World) -> Run
    ensures { result ≡ ended_with limits status (world_of world) }
{
    Run::Ended {
        status,
        output: Row::from_vec(world.output),
        steps: limits.steps.saturating_sub(world.steps),
    }
}

/// What a run comes to that has come so far.
fn run_from(limits: Limits, world: World, outcome: Outcome<Held>) -> Run
    ensures { result ≡ run_from limits (world_of world) outcome }
{
    match outcome {
        Outcome::Came(Held::Returned(Value::Number(_, value))) => {
            ended_with(limits, status_of(value), world)
        }
        Outcome::Halted(Halted::Exited(status)) => ended_with(limits, status, world),
        Outcome::Halted(Halted::Undefined(number, node)) => Run::Undefined(number, node),
        Outcome::Halted(Halted::Left(number, node)) => Run::Left(number, node),
        Outcome::Stopped => Run::Stopped,
        Outcome::Came(_) | Outcome::Halted(Halted::NoMemory) => Run::NoMemory,
    }
}

/// Runs a program (C11 5.1.2): what the meaning says, the status, the output and the steps, or the first case, U1 to U16 or N1 to N7,
/// with its node. Stopped where the stop asked to give up, which it may do before the first step and after each 4,096 steps. `NoMemory`
/// is want of memory, or a table that is of no program of the subset.
pub fn run<S: Stop>(alloc: Global, table: &Table, stop: &mut S) -> Run
    requires { S.raised stop.old ≡ false }
    ensures meant { has_come result ≡ true → Means (program_of table.now) result }
    ensures only { (outcome : SpecRun) → Means (program_of table.now) outcome → has_come result ≡ true → outcome ≡ result }
    ensures stopped { result ≡ Run.Stopped → S.raised stop.new ≡ true }
    ensures held { S.held stop.new ≡ S.held stop.old }
    ensures looked { Looked result table.now.limits.steps (S.looks stop.old) (S.looks stop.new) }
{
    run_seen(alloc, table, stop, Unseen).0
}

/// Runs a program as `run` does, while a watch, which knows of none yet, sees where its nodes begin and end. It comes back with the
/// outcome.
pub fn run_seen<S: Stop, W: Watch>(alloc: Global, table: &Table, stop: &mut S, watch: W) -> (Run, W)
    requires unstopped { S.raised stop.old ≡ false }
    requires fresh { W.knows watch (program_of table.now) [] }
    ensures meant { has_come result.0 ≡ true → Means (program_of table.now) result.0 }
    ensures only { (outcome : SpecRun) → Means (program_of table.now) outcome → has_come result.0 ≡ true → outcome ≡ result.0 }
    ensures stopped { result.0 ≡ Run.Stopped → S.raised stop.new ≡ true }
    ensures held { S.held stop.new ≡ S.held stop.old }
    ensures looked { Looked result.0 table.now.limits.steps (S.looks stop.old) (S.looks stop.new) }
    // It has seen the marks of this run.
    ensures seen { has_come result.0 ≡ true → IsWatched (W.knows result.1 (program_of table.now)) (program_of table.now) result.0 }
{
    let Some(root) = root_of(table) else {
        return (Run::NoMemory, watch);
    };
    let Ok(world) = start(alloc, table) else {
        return (Run::NoMemory, watch);
    };
    let running = Running {
        alloc,
        table,
        world,
    };
    let mut watched = Watched { running, watch };
    let outcome = run_nodes(alloc, &mut watched, root, stop);
    let Watched { running, watch } = watched;
    (run_from(table.limits, running.world, outcome), watch)
}
