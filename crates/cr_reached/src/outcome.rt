// The run of a typed unit, and whether it reaches a label.
ghost use Rattle.std.specs.Prelude.{◌≡◌, ℕ, true, false, IfSome};
ghost use Rattle.cr_eval.specs.Table.{program_of as program_in};
ghost use Rattle.cr_exec.specs.Runs.{has_come, Looked};
ghost use Rattle.cr_meaning_loose.specs.Lists.{around};
ghost use Rattle.cr_meaning_operations.specs.Laws.{Comes};
ghost use Rattle.cr_meaning_operations.specs.Operations.{program_of};
ghost use Rattle.cr_order.specs.Orders.{outer_of};
ghost use Rattle.cr_reached.specs.Own.{IsWhole};
ghost use Rattle.cr_reached.specs.Reached.{IsJudgedIf, IsLabel, TellsReached};
ghost use Rattle.cr_syntax.specs.Words.{AreSpans};
ghost use Rattle.cr_typed.specs.Typed.{IsTyped};

use crate::labels::is_one_set;
use crate::running::run_reached;
use crate::whole::whole_of;
use cr_cursor::Stop;
use cr_eval::Table;
use cr_exec_table::table;
use cr_meaning::{Limits, Run};
use cr_typed::Typed;
use std::alloc::Global;

// Whether a label of the name is marked with all that its statement's own expression has; nothing for want of memory.
fn is_reached(
    alloc: Global,
    typed: &Typed,
    table: &Table,
    name: &[u8],
    began: &[bool],
) -> Option<bool>
    requires { AreSpans typed.now.file typed.now.tokens }
    ensures some { IfSome result (λ found. found ≡ true → (label : ℕ) × IsLabel typed.now name.now label × IsWhole (program_in table.now) began.now label) }
    ensures none { IfSome result (λ found. found ≡ false → (label : ℕ) → IsLabel typed.now name.now label → IsWhole (program_in table.now) began.now label → ⊥) }
{
    let Ok(whole) = whole_of(alloc, table, began) else {
        return None;
    };
    if whole.len() < typed.nodes.len() {
        return None;
    }
    Some(is_one_set(typed, name, whole.as_slice()))
}

/// Runs a typed unit within limits as `outcome` of `cr_exec_outcome` does, and tells whether a statement with a label is reached and its own
/// expression evaluated whole; where it is asked for, it finds the first node or initialiser list whose operands see one another.
pub fn outcome_reached<S: Stop>(
    alloc: Global,
    typed: &Typed,
    limits: Limits,
    any_order: bool,
    name: &[u8],
    stop: &mut S,
) -> (Run, Option<u32>, bool)
    requires typed { IsTyped typed.now }
    requires unstopped { S.raised stop.old ≡ false }
    ensures comes { has_come result.0 ≡ true → Comes typed.now limits result.0 }
    ensures stopped { result.0 ≡ Run.Stopped → S.raised stop.new ≡ true }
    ensures held { S.held stop.new ≡ S.held stop.old }
    ensures looked { Looked result.0 limits.steps (S.looks stop.old) (S.looks stop.new) }
    ensures judged { has_come result.0 ≡ true → IsJudgedIf any_order (program_of typed.now limits) (around (outer_of typed.now)) result.0 result.1 }
    ensures tells { has_come result.0 ≡ true → TellsReached limits name.now typed.now result.2 }
{
    let Ok(table) = table(alloc, typed, limits) else {
        return (Run::NoMemory, None, false);
    };
    let (run, loose, began) = run_reached(alloc, typed, &table, any_order, stop);
    match is_reached(alloc, typed, &table, name, began.as_slice()) {
        Some(reached) => (run, loose, reached),
        None => (Run::NoMemory, None, false),
    }
}
