// The run of a program, and which nodes it evaluates.
ghost use Rattle.std.specs.Prelude.{◌≡◌, [], None, true, false};
ghost use Rattle.cr_eval.specs.Table.{program_of};
ghost use Rattle.cr_exec.specs.Runs.{has_come, Looked};
ghost use Rattle.cr_meaning.specs.Meaning.{Means};
ghost use Rattle.cr_meaning_loose.specs.Lists.{around};
ghost use Rattle.cr_order.specs.Orders.{outer_of};
ghost use Rattle.cr_reached.specs.Evaluated.{IsRunMarked, KnowsBegun};
ghost use Rattle.cr_reached.specs.Reached.{IsJudgedIf};

use crate::watch::ReachWatch;
use cr_cursor::Stop;
use cr_eval::Table;
use cr_exec::run_seen;
use cr_meaning::Run;
use cr_order::outer_of;
use cr_order_watch::run_judged_beside;
use cr_typed::Typed;
use std::alloc::Global;

// Without a look at the order.
fn run_alone<S: Stop>(
    alloc: Global,
    table: &Table,
    stop: &mut S,
    watch: ReachWatch,
) -> (Run, Option<u32>, ReachWatch)
    requires unstopped { S.raised stop.old ≡ false }
    requires fresh { KnowsBegun watch (program_of table.now) [] }
    ensures meant { has_come result.0 ≡ true → Means (program_of table.now) result.0 }
    ensures stopped { result.0 ≡ Run.Stopped → S.raised stop.new ≡ true }
    ensures held { S.held stop.new ≡ S.held stop.old }
    ensures looked { Looked result.0 table.now.limits.steps (S.looks stop.old) (S.looks stop.new) }
    ensures unjudged { result.1 ≡ None }
    ensures marked { has_come result.0 ≡ true → IsRunMarked (program_of table.now) result.0 result.2.began.items }
{
    let (run, watch) = run_seen(alloc, table, stop, watch);
    (run, None, watch)
}

// With the first node or initialiser list whose operands see one another.
fn run_in_order<S: Stop>(
    alloc: Global,
    typed: &Typed,
    table: &Table,
    stop: &mut S,
    watch: ReachWatch,
) -> (Run, Option<u32>, ReachWatch)
    requires unstopped { S.raised stop.old ≡ false }
    requires fresh { KnowsBegun watch (program_of table.now) [] }
    ensures meant { has_come result.0 ≡ true → Means (program_of table.now) result.0 }
    ensures stopped { result.0 ≡ Run.Stopped → S.raised stop.new ≡ true }
    ensures held { S.held stop.new ≡ S.held stop.old }
    ensures looked { Looked result.0 table.now.limits.steps (S.looks stop.old) (S.looks stop.new) }
    ensures judged { has_come result.0 ≡ true → IsJudgedIf true (program_of table.now) (around (outer_of typed.now)) result.0 result.1 }
    ensures marked { has_come result.0 ≡ true → IsRunMarked (program_of table.now) result.0 result.2.began.items }
{
    match outer_of(alloc, typed) {
        Ok(outer) => run_judged_beside(alloc, table, outer.as_slice(), stop, watch),
        Err(_) => (Run::NoMemory, None, watch),
    }
}

fn run_watched<S: Stop>(
    alloc: Global,
    typed: &Typed,
    table: &Table,
    any_order: bool,
    stop: &mut S,
    watch: ReachWatch,
) -> (Run, Option<u32>, ReachWatch)
    requires unstopped { S.raised stop.old ≡ false }
    requires fresh { KnowsBegun watch (program_of table.now) [] }
    ensures meant { has_come result.0 ≡ true → Means (program_of table.now) result.0 }
    ensures stopped { result.0 ≡ Run.Stopped → S.raised stop.new ≡ true }
    ensures held { S.held stop.new ≡ S.held stop.old }
    ensures looked { Looked result.0 table.now.limits.steps (S.looks stop.old) (S.looks stop.new) }
    ensures judged { has_come result.0 ≡ true → IsJudgedIf any_order (program_of table.now) (around (outer_of typed.now)) result.0 result.1 }
    ensures marked { has_come result.0 ≡ true → IsRunMarked (program_of table.now) result.0 result.2.began.items }
{
    if any_order {
        run_in_order(alloc, typed, table, stop, watch)
    } else {
        run_alone(alloc, table, stop, watch)
    }
}

/// Runs a typed unit's program as `run` of `cr_exec` does, and marks the nodes that are evaluated; where it is asked for, it finds the
/// first node or initialiser list whose operands see one another.
pub(crate) fn run_reached<S: Stop>(
    alloc: Global,
    typed: &Typed,
    table: &Table,
    any_order: bool,
    stop: &mut S,
) -> (Run, Option<u32>, Vec<bool>)
    requires { S.raised stop.old ≡ false }
    ensures meant { has_come result.0 ≡ true → Means (program_of table.now) result.0 }
    ensures stopped { result.0 ≡ Run.Stopped → S.raised stop.new ≡ true }
    ensures held { S.held stop.new ≡ S.held stop.old }
    ensures looked { Looked result.0 table.now.limits.steps (S.looks stop.old) (S.looks stop.new) }
    ensures judged { has_come result.0 ≡ true → IsJudgedIf any_order (program_of table.now) (around (outer_of typed.now)) result.0 result.1 }
    ensures marked { has_come result.0 ≡ true → IsRunMarked (program_of table.now) result.0 result.2.items }
{
    match ReachWatch::new(alloc, table.ops.len()) {
        Ok(watch) => {
            let (run, loose, watch) = run_watched(alloc, typed, table, any_order, stop, watch);
            (run, loose, watch.began)
        }
        Err(_) => (Run::NoMemory, None, Vec::new(alloc)),
    }
}
