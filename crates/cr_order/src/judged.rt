// The run of a typed unit, and whether its order is fixed.
ghost use Rattle.std.specs.Prelude.{◌≡◌, true, false};
ghost use Rattle.cr_exec.specs.Runs.{has_come, Looked};
ghost use Rattle.cr_meaning_operations.specs.Laws.{Comes};
ghost use Rattle.cr_meaning_operations.specs.Operations.{program_of};
ghost use Rattle.cr_meaning_loose.specs.Lists.{around};
ghost use Rattle.cr_order.specs.Orders.{outer_of};
ghost use Rattle.cr_order_watch.specs.Judged.{IsJudged};
ghost use Rattle.cr_typed.specs.Typed.{IsTyped};

use crate::lists::outer_of;
use cr_cursor::Stop;
use cr_exec_table::table;
use cr_meaning::{Limits, Run};
use cr_order_watch::run_judged;
use cr_typed::Typed;
use std::alloc::Global;

/// Runs a typed unit within limits as `outcome` of `cr_exec_outcome` does, and finds the first node or initialiser list whose operands
/// see one another.
pub fn outcome_judged<S: Stop>(
    alloc: Global,
    typed: &Typed,
    limits: Limits,
    stop: &mut S,
) -> (Run, Option<u32>)
    requires typed { IsTyped typed.now }
    requires unstopped { S.raised stop.old ≡ false }
    ensures comes { has_come result.0 ≡ true → Comes typed.now limits result.0 }
    ensures stopped { result.0 ≡ Run.Stopped → S.raised stop.new ≡ true }
    ensures held { S.held stop.new ≡ S.held stop.old }
    ensures looked { Looked result.0 limits.steps (S.looks stop.old) (S.looks stop.new) }
    ensures judged { has_come result.0 ≡ true → IsJudged (program_of typed.now limits) (around (outer_of typed.now)) result.0 result.1 }
{
    match table(alloc, typed, limits) {
        Ok(table) => match outer_of(alloc, typed) {
            Ok(outer) => run_judged(alloc, &table, outer.as_slice(), stop),
            Err(_) => (Run::NoMemory, None),
        },
        Err(_) => (Run::NoMemory, None),
    }
}
