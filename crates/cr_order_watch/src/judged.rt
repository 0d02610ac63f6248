// The run of a program, and whether its order is fixed.
ghost use Rattle.std.specs.Prelude.{◌≡◌, [], true, false};
ghost use Rattle.cr_eval.specs.Table.{program_of};
ghost use Rattle.cr_exec.specs.Runs.{has_come, IsWatched, Looked};
ghost use Rattle.cr_meaning.specs.Meaning.{Means};
ghost use Rattle.cr_meaning.specs.declared.run.Run.{Run as SpecRun};
ghost use Rattle.cr_order_watch.specs.Judged.{IsJudged};
ghost use Rattle.cr_meaning_loose.specs.Lists.{around};

use crate::beside::Beside;
use crate::watch::OrderWatch;
use cr_cursor::Stop;
use cr_eval::Table;
use cr_exec::{Watch, run_seen};
use cr_meaning::Run;
use std::alloc::Global;

fn is_same(one: &[Option<u32>], other: &[Option<u32>]) -> bool
    ensures { result ≡ true → one.now ≡ other.now }
{
    one == other
}

/// Runs a program as `run` of `cr_exec` does, and finds the first node whose operands see one another (C11 6.5p3): the first one that
/// ends, or that the end of the run cuts off, of several that are cut off at once the innermost. An initialiser list is such a node
/// too, and ends behind its last initialiser (6.7.9p23): `outer` has for each node the list in which it directly stands.
pub fn run_judged<S: Stop>(
    alloc: Global,
    table: &Table,
    outer: &[Option<u32>],
    stop: &mut S,
) -> (Run, Option<u32>)
    requires { S.raised stop.old ≡ false }
    ensures meant { has_come result.0 ≡ true → Means (program_of table.now) result.0 }
    ensures only { (outcome : SpecRun) → Means (program_of table.now) outcome → has_come result.0 ≡ true → outcome ≡ result.0 }
    ensures stopped { result.0 ≡ Run.Stopped → S.raised stop.new ≡ true }
    ensures held { S.held stop.new ≡ S.held stop.old }
    ensures looked { Looked result.0 table.now.limits.steps (S.looks stop.old) (S.looks stop.new) }
    ensures judged { has_come result.0 ≡ true → IsJudged (program_of table.now) (around outer.now) result.0 result.1 }
{
    let (run, watch) = run_seen(alloc, table, stop, OrderWatch::new(alloc, table, outer));
    // Of a watch that has run it isn't known that its lists are those that it had before.
    if !is_same(watch.outer(), outer) {
        return (Run::NoMemory, None);
    }
    (run, watch.first_loose())
}

/// The same, while another watch, which knows of none yet, sees the run too. It comes back with the outcome.
pub fn run_judged_beside<S: Stop, W: Watch>(
    alloc: Global,
    table: &Table,
    outer: &[Option<u32>],
    stop: &mut S,
    watch: W,
) -> (Run, Option<u32>, W)
    requires unstopped { S.raised stop.old ≡ false }
    requires fresh { W.knows watch (program_of table.now) [] }
    ensures meant { has_come result.0 ≡ true → Means (program_of table.now) result.0 }
    ensures stopped { result.0 ≡ Run.Stopped → S.raised stop.new ≡ true }
    ensures held { S.held stop.new ≡ S.held stop.old }
    ensures looked { Looked result.0 table.now.limits.steps (S.looks stop.old) (S.looks stop.new) }
    ensures judged { has_come result.0 ≡ true → IsJudged (program_of table.now) (around outer.now) result.0 result.1 }
    ensures seen { has_come result.0 ≡ true → IsWatched (W.knows result.2 (program_of table.now)) (program_of table.now) result.0 }
{
    let both = Beside {
        one: OrderWatch::new(alloc, table, outer),
        other: watch,
    };
    let (run, both) = run_seen(alloc, table, stop, both);
    let Beside { one, other } = both;
    if !is_same(one.outer(), outer) {
        return (Run::NoMemory, None, other);
    }
    (run, one.first_loose(), other)
}
