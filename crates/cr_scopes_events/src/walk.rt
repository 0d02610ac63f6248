ghost use Rattle.std.specs.Prelude.{◌≡◌, ℕ, ◌+◌, ◌++◌, List, [], IfOk, OnOk, length};
ghost use Rattle.std.specs.List.{flat_map};
ghost use Rattle.cr_scopes_events.specs.declared.event.Event.{Event};
ghost use Rattle.cr_scopes_events.specs.Values.{before};
ghost use Rattle.cr_scopes_events.specs.Events.{events_of, events_at, events_by, is_below, to_come};

use crate::event::{Event, Step};
use crate::script::script;
use crate::steps::inside;
use cr_syntax::{Node, Unit};
use cr_tokens::Token;
use std::alloc::{AllocError, Global};

/// The events of a unit, in the order of its text. The parameters of a function definition are told twice: in a list of
/// their own, and behind its name in the block of its body. The error is want of memory.
pub fn events(alloc: Global, unit: &Unit) -> Result<Vec<Event>, AllocError>
    ensures { IfOk result (λ es. es.items ≡ events_of unit.now.tokens.list.items unit.now.nodes unit.now.items) }
{
    let nodes = unit.nodes.as_slice();
    let left = first_steps(alloc, nodes, unit.items.as_slice())?;
    walked(alloc, unit.tokens.list.as_slice(), nodes, left)
}

// The walk into some nodes.
#[tactic(auto, using(crate::proofs::Walks::started))]
fn first_steps(alloc: Global, nodes: &[Node], items: &[u32]) -> Result<Vec<Step>, AllocError>
    ensures { IfOk result (λ left. (at : ℕ → List Event) → to_come at left.items ≡ flat_map (before [] (length nodes.now) at) items.now) }
{
    let mut steps = Vec::new(alloc);
    let mut left = Vec::new(alloc);
    inside(&mut steps, items)?;
    put_off(&mut left, &mut steps, nodes.len())?;
    Ok(left)
}

fn walked(
    alloc: Global,
    tokens: &[Token],
    nodes: &[Node],
    mut left: Vec<Step>,
) -> Result<Vec<Event>, AllocError>
    ensures { IfOk result (λ es. es.items ≡ to_come (events_at tokens.now nodes.now) left.items) }
{
    let mut events = Vec::with_capacity(alloc, nodes.len())?;
    let mut steps = Vec::new(alloc);
    while let Some(step) = left.pop() {
        walk_on(tokens, nodes, step, &mut left, &mut steps, &mut events)?;
    }
    Ok(events)
}

// Does one step, and puts off what it leads to. The row of steps is empty before and after.
#[tactic(auto, using(crate::proofs::Walks::inside_is))]
fn walk_on(
    tokens: &[Token],
    nodes: &[Node],
    step: Step,
    left: &mut Vec<Step>,
    steps: &mut Vec<Step>,
    events: &mut Vec<Event>,
) -> Result<(), AllocError>
    requires { steps.old.items ≡ [] }
    ensures steps { OnOk result (steps.new.items ≡ []) }
    ensures one { OnOk result (length events.new.items ≡ length events.old.items + 1) }
    ensures same { let at = events_at tokens.now nodes.now in OnOk result (events.new.items ++ to_come at left.new.items ≡ events.old.items ++ (events_by at step ++ to_come at left.old.items)) }
{
    match step {
        Step::Happens(event) => {
            events.push(event)?;
            Ok(())
        }
        Step::Inside(node) => {
            events.push(Event::Node(node))?;
            script(steps, tokens, nodes, node)?;
            put_off(left, steps, node as usize)
        }
    }
}

// Puts off all steps, the first one to be done next; parts that aren't below the bound are none.
fn put_off(left: &mut Vec<Step>, steps: &mut Vec<Step>, bound: usize) -> Result<(), AllocError>
    ensures none { OnOk result (steps.new.items ≡ []) }
    ensures all { OnOk result ((at : ℕ → List Event) → to_come at left.new.items ≡ flat_map (events_by (before [] bound at)) steps.old.items ++ to_come at left.old.items) }
{
    while let Some(step) = steps.pop() {
        put_off_one(left, step, bound)?;
    }
    Ok(())
}

#[tactic(auto, using(crate::proofs::Walks::put_off_below, crate::proofs::Walks::put_off_none))]
fn put_off_one(left: &mut Vec<Step>, step: Step, bound: usize) -> Result<(), AllocError>
    ensures { OnOk result ((at : ℕ → List Event) → to_come at left.new.items ≡ events_by (before [] bound at) step ++ to_come at left.old.items) }
{
    if is_below(step, bound) {
        left.push(step)?;
    }
    Ok(())
}

fn is_below(step: Step, bound: usize) -> bool
    ensures { result ≡ is_below bound step }
{
    match step {
        Step::Happens(_) => true,
        Step::Inside(part) => (part as usize) < bound,
    }
}
