ghost use Rattle.std.specs.Prelude.{◌≡◌, true, false};
ghost use Rattle.cr_exec.specs.Runs.{has_come, Looked};
ghost use Rattle.cr_meaning_operations.specs.Laws.{Comes};
ghost use Rattle.cr_typed.specs.Typed.{IsTyped};

use cr_cursor::Stop;
use cr_exec::run;
use cr_exec_table::table;
use cr_meaning::{Limits, Run};
use cr_typed::Typed;
use std::alloc::Global;

/// Runs a typed unit within limits: the status, the output and the steps, or the first case, U1 to U16 or N1 to N7, with its node.
/// Stopped where the stop asked to give up, which it may do before the first step and after each 4,096 steps. `NoMemory` is want of
/// memory.
pub fn outcome<S: Stop>(alloc: Global, typed: &Typed, limits: Limits, stop: &mut S) -> Run
    requires typed { IsTyped typed.now }
    requires unstopped { S.raised stop.old ≡ false }
    ensures comes { has_come result ≡ true → Comes typed.now limits result }
    ensures stopped { result ≡ Run.Stopped → S.raised stop.new ≡ true }
    ensures held { S.held stop.new ≡ S.held stop.old }
    ensures looked { Looked result limits.steps (S.looks stop.old) (S.looks stop.new) }
{
    match table(alloc, typed, limits) {
        Ok(table) => run(alloc, &table, stop),
        Err(_) => Run::NoMemory,
    }
}
