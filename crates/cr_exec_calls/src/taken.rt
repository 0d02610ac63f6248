// The answers of arguments, taken off the stack.
#![tactic(auto, using(cr_eval::proofs::Answering::answers, cr_exec_world::proofs::Working::worked, cr_exec_world::proofs::Working::unsaid, cr_exec_world::proofs::Working::left, cr_exec_world::proofs::Working::undefined))]

ghost use Rattle.std.specs.Prelude.{◌≡◌, ◌++◌, ◌∷◌, [], IfOk};
ghost use Rattle.cr_exec_calls.specs.Arguments.{value_in};
ghost use Rattle.cr_exec_calls.specs.Taken.{AddsArgument, Takes, TakesReversed};

use cr_eval_join::{Part, argument};
use cr_exec_stack::Stack;
use cr_exec_turns::Held;
use cr_footprint::Foot;
use cr_meaning::Value;
use cr_memory::Trap;
use std::alloc::Global;

/// The arguments of a call: their values, and what all of them read and wrote.
#[derive(Drop)]
pub(crate) struct Taken {
    pub(crate) values: Vec<Value>,
    pub(crate) foot: Foot,
}

/// An argument before the later ones, whose values stand in the other order.
fn with_part(alloc: Global, part: Part, later: Taken) -> Result<Taken, Trap>
    ensures foot { AddsArgument part later result }
    ensures values { IfOk result (λ taken. taken.values.items ≡ later.values.items ++ part.value ∷ []) }
{
    let mut values = later.values;
    let Ok(()) = values.push(part.value) else {
        return Err(Trap::NoMemory);
    };
    match argument(alloc, part.foot, later.foot) {
        Ok(foot) => Ok(Taken { values, foot }),
        Err(trap) => Err(trap),
    }
}

/// The values of arguments, the last one first.
fn take_each(alloc: Global, stack: &mut Stack<Held>) -> Result<Taken, Trap>
    ensures taken { TakesReversed stack.old.top.done result }
    ensures below { stack.new.below ≡ stack.old.below }
{
    let mut taken = Taken {
        values: Vec::new(alloc),
        foot: Foot::none(alloc),
    };
    while let Some(held) = stack.pop() {
        let Held::Part(part) = held else {
            return Err(Trap::NoMemory);
        };
        taken = match with_part(alloc, part, taken) {
            Ok(taken) => taken,
            Err(trap) => return Err(trap),
        };
    }
    Ok(taken)
}

/// All answers of the node at work, which are those of a call's arguments: U12. `NoMemory` is want of memory, or an answer that is no
/// expression's.
pub(crate) fn take_arguments(alloc: Global, stack: &mut Stack<Held>) -> Result<Taken, Trap>
    ensures taken { Takes stack.old.top.done result }
    ensures below { stack.new.below ≡ stack.old.below }
{
    match take_each(alloc, stack) {
        Ok(taken) => {
            let mut values = taken.values;
            values.reverse();
            Ok(Taken {
                values,
                foot: taken.foot,
            })
        }
        Err(trap) => Err(trap),
    }
}
