// The whole program before and behind main (C11 5.1.2).
ghost use Rattle.std.specs.Prelude.{◌≡◌, IfSome, List};
ghost use Rattle.std.specs.List.{AllZip};
ghost use Rattle.cr_meaning.specs.World.{Answer};
ghost use Rattle.cr_meaning.specs.Nodes.{entering, deeper, last_in};
ghost use Rattle.cr_meaning.specs.Values.{scalar_name, scalar_element};
ghost use Rattle.cr_meaning.specs.Meaning.{main_entered, program_before, program_end};
ghost use Rattle.cr_eval.specs.Table.{program_of};
ghost use Rattle.cr_exec_slices.specs.Shown.{Worked};
ghost use Rattle.cr_exec_turns.specs.Held.{shows};
ghost use Rattle.cr_exec_world.specs.Worlds.{world_of};
ghost use Rattle.cr_exec_statements.specs.Kept.{program_left, Does};
ghost use Rattle.cr_exec_statements.specs.Parts.{arguments_entered, strings_entered};

use crate::kept::last;
use cr_eval::Table;
use cr_exec_slices::Halted;
use cr_exec_stack::Stack;
use cr_exec_turns::Held;
use cr_exec_world::{World, deeper, enter, enter_each, spelled_for};
use cr_ints::IntKind;
use cr_meaning::{Parameter, Value};
use cr_memory::{Cell, Element, Guard, Pointer, Scalar, place_of};

/// What names a scalar, where its name isn't too large.
fn scalar_name(kind: Scalar) -> Option<u32>
    ensures { IfSome result (λ name. name ≡ scalar_name kind) }
{
    match kind {
        Scalar::Int(kind) => Some(place_of(kind)),
        Scalar::Pointer(to) => {
            let name = to.checked_mul(3)?.checked_add(12)?;
            Some(name)
        }
    }
}

/// A scalar as an element.
fn scalar_element(kind: Scalar) -> Option<Element>
    ensures { IfSome result (λ element. element ≡ scalar_element kind) }
{
    let of = scalar_name(kind)?;
    Some(Element { cells: 1, of })
}

/// main's parameters get 0 and a pointer to the array (5.1.2.2.1p2): N3.
fn enter_arguments(
    table: &Table,
    world: &mut World,
    strings: Scalar,
    object: u32,
    count: u32,
    vector: u32,
) -> Result<(), Halted>
    ensures work { Worked (entering (arguments_entered (program_of table.now) strings object count vector (world_of world.old))) result (world_of world.new) }
    ensures steps { world.new.steps ≡ world.old.steps }
{
    let Some(element) = scalar_element(strings) else {
        return Err(Halted::NoMemory);
    };
    let strings = Pointer::At {
        object,
        cell: 0,
        low: 0,
        high: 1,
        element,
    };
    let (Some(one), Some(other)) = (spelled_for(table, count), spelled_for(table, vector)) else {
        return Err(Halted::NoMemory);
    };
    match enter(world, count, one, &[Cell::Number(0)]) {
        Ok(()) => enter(world, vector, other, &[Cell::Pointer(strings)]),
        Err(halted) => Err(halted),
    }
}

/// The array of one null pointer comes before the parameters: N3.
fn enter_main(
    table: &Table,
    world: &mut World,
    strings: Scalar,
    count: u32,
    vector: u32,
) -> Result<(), Halted>
    ensures work { Worked (entering (strings_entered (program_of table.now) strings count vector (world_of world.old))) result (world_of world.new) }
    ensures steps { world.new.steps ≡ world.old.steps }
{
    match enter(
        world,
        vector,
        &[(strings, Guard::Free)],
        &[Cell::Pointer(Pointer::Null)],
    ) {
        Ok(()) => match world.names.find(vector) {
            Some(object) => enter_arguments(table, world, strings, object, count, vector),
            None => Err(Halted::NoMemory),
        },
        Err(halted) => Err(halted),
    }
}

/// main is called.
fn call_main(
    table: &Table,
    world: &mut World,
    strings: Scalar,
    parameters: &[Parameter],
) -> Result<(), Halted>
    ensures work { Worked (entering (main_entered (program_of table.now) strings parameters.now (deeper (world_of world.old)))) result (world_of world.new) }
    ensures steps { world.new.steps ≡ world.old.steps }
{
    match deeper(world) {
        Ok(()) => match parameters {
            [count, vector] => enter_main(table, world, strings, count.node, vector.node),
            _ => Ok(()),
        },
        Err(halted) => Err(halted),
    }
}

/// First the objects of static duration and the literals, in order of their tokens; then main is called: N3.
pub(crate) fn program_before(
    table: &Table,
    world: &mut World,
    objects: &[u32],
    parameters: &[Parameter],
    strings: Scalar,
    done: &[Held],
) -> Result<(), Halted>
    ensures work { Does (λ answers. program_before (program_of table.now) objects.now parameters.now strings answers (world_of world.old)) done.now result (world_of world.new) }
    ensures steps { world.new.steps ≡ world.old.steps }
{
    if done.is_empty() {
        enter_each(table, world, objects, true)
    } else {
        call_main(table, world, strings, parameters)
    }
}

fn program_left(answer: Held) -> Held
    ensures { result ≡ program_left answer }
{
    match answer {
        Held::Returned(value) => Held::Returned(value),
        _ => Held::Returned(Value::Number(IntKind::Int, 0)),
    }
}

/// main's closing brace gives 0 (5.1.2.2.3p1).
pub(crate) fn program_end(stack: &mut Stack<Held>) -> Held
    ensures shown { (answers : List Answer) → AllZip shows stack.old.top.done answers → shows result (program_end (last_in answers)) }
    ensures below { stack.new.below ≡ stack.old.below }
{
    program_left(last(stack))
}
