ghost use Rattle.std.specs.Prelude.{◌≡◌, ◌++◌, ◌∷◌, [], OnOk, take, drop};
ghost use Rattle.cr_scopes_events.specs.declared.event.Event.TheVariants.{Opens, Closes};
ghost use Rattle.cr_scopes_events.specs.declared.event.Step.TheVariants.{Happens, Inside};
ghost use Rattle.cr_scopes_events.specs.Scripts.{first_at, inside, in_scopes, in_scope, block};

use crate::event::{Event, Step};
use cr_syntax::Node;
use std::alloc::AllocError;

/// The first token of the node of a number.
pub fn first_at(nodes: &[Node], at: usize) -> Option<u32>
    ensures { result ≡ first_at nodes.now at }
{
    if at < nodes.len() {
        Some(nodes[at].first)
    } else {
        None
    }
}

/// So many parts.
pub fn first(parts: &[u32], count: usize) -> &[u32]
    ensures { result.now ≡ take count parts.now }
{
    &parts[..count.min(parts.len())]
}

/// The parts behind so many.
pub fn behind(parts: &[u32], count: usize) -> &[u32]
    ensures { result.now ≡ drop count parts.now }
{
    &parts[count.min(parts.len())..]
}

/// An event.
pub fn happens(steps: &mut Vec<Step>, event: Event) -> Result<(), AllocError>
    ensures { OnOk result (steps.new.items ≡ steps.old.items ++ Happens event ∷ []) }
{
    steps.push(Step::Happens(event))?;
    Ok(())
}

/// All that is done at a part.
pub fn goes_inside(steps: &mut Vec<Step>, part: u32) -> Result<(), AllocError>
    ensures { OnOk result (steps.new.items ≡ steps.old.items ++ Inside part ∷ []) }
{
    steps.push(Step::Inside(part))?;
    Ok(())
}

/// All that is done at some parts.
pub fn inside(steps: &mut Vec<Step>, parts: &[u32]) -> Result<(), AllocError>
    ensures { OnOk result (steps.new.items ≡ steps.old.items ++ inside parts.now) }
{
    for part in parts {
        goes_inside(steps, *part)?;
    }
    Ok(())
}

fn in_scopes(steps: &mut Vec<Step>, parts: &[u32]) -> Result<(), AllocError>
    ensures { OnOk result (steps.new.items ≡ steps.old.items ++ in_scopes parts.now) }
{
    for part in parts {
        in_own_scope(steps, *part)?;
    }
    Ok(())
}

fn in_own_scope(steps: &mut Vec<Step>, part: u32) -> Result<(), AllocError>
    ensures { OnOk result (steps.new.items ≡ steps.old.items ++ in_scope (Inside part ∷ [])) }
{
    happens(steps, Event::Opens)?;
    goes_inside(steps, part)?;
    happens(steps, Event::Closes)
}

/// A block: parts that stand in it alone, parts that are blocks in it, and parts behind those.
pub fn block(
    steps: &mut Vec<Step>,
    first: &[u32],
    blocks: &[u32],
    rest: &[u32],
) -> Result<(), AllocError>
    ensures { OnOk result (steps.new.items ≡ steps.old.items ++ block first.now blocks.now rest.now) }
{
    happens(steps, Event::Opens)?;
    inside(steps, first)?;
    in_scopes(steps, blocks)?;
    inside(steps, rest)?;
    happens(steps, Event::Closes)
}
