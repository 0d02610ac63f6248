// The arguments as values of the parameters' types (C11 6.5.2.2p7).
#![tactic(auto, using(cr_eval::proofs::Answering::answers, cr_exec_world::proofs::Working::worked, cr_exec_world::proofs::Working::unsaid, cr_exec_world::proofs::Working::left, cr_exec_world::proofs::Working::undefined))]

ghost use Rattle.std.specs.Prelude.{◌≡◌};
ghost use Rattle.std.specs.List.{list_any};
ghost use Rattle.cr_meaning.specs.Nodes.{arguments, converted_all};
ghost use Rattle.cr_meaning.specs.Values.{converted};
ghost use Rattle.cr_eval.specs.Answers.{Answers};
ghost use Rattle.cr_exec_calls.specs.Arguments.{value_in, values_in, is_unused, listed};

use cr_eval::{UNUSED_VALUE, converted, is_nothing};
use cr_exec_turns::Held;
use cr_meaning::{Parameter, Value};
use cr_memory::{Store, Trap};
use std::alloc::Global;

fn is_unused(held: &Held) -> bool
    ensures { result ≡ is_unused held.now }
{
    match held {
        Held::Part(part) => is_nothing(&part.value),
        _ => true,
    }
}

fn any_unused(done: &[Held]) -> bool
    ensures { result ≡ list_any is_unused done.now }
{
    done.iter().any(|held| is_unused(held))
}

fn convert_one(
    alloc: Global,
    store: &Store,
    parameter: Parameter,
    held: &Held,
) -> Result<Value, Trap>
    ensures { Answers (converted store.now parameter.form (value_in held.now)) result }
{
    match held {
        Held::Part(part) => converted(alloc, store, parameter.form, &part.value),
        _ => Err(Trap::NoMemory),
    }
}

fn convert_each(
    alloc: Global,
    store: &Store,
    parameters: &[Parameter],
    done: &[Held],
) -> Result<Vec<Value>, Trap>
    ensures { Answers (converted_all store.now parameters.now (values_in done.now)) (listed result) }
{
    let mut values = Vec::new(alloc);
    let mut left = parameters;
    let mut rest = done;
    while let Some((parameter, parameters)) = left.split_first() {
        let Some((held, more)) = rest.split_first() else {
            return Err(Trap::NoMemory);
        };
        let value = match convert_one(alloc, store, *parameter, held) {
            Ok(value) => value,
            Err(trap) => return Err(trap),
        };
        let Ok(()) = values.push(value) else {
            return Err(Trap::NoMemory);
        };
        left = parameters;
        rest = more;
    }
    if rest.is_empty() {
        Ok(values)
    } else {
        Err(Trap::NoMemory)
    }
}

/// The values of the parameters: U15 of any argument, then U10. `NoMemory` is want of memory, or arguments that no program of the
/// subset has.
pub(crate) fn arguments(
    alloc: Global,
    store: &Store,
    parameters: &[Parameter],
    done: &[Held],
) -> Result<Vec<Value>, Trap>
    ensures { Answers (arguments store.now parameters.now (values_in done.now)) (listed result) }
{
    if any_unused(done) {
        return Err(Trap::Undefined(UNUSED_VALUE));
    }
    convert_each(alloc, store, parameters, done)
}
