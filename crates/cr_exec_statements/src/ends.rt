// The ends of statements (C11 6.8).
ghost use Rattle.std.specs.Prelude.{◌≡◌};
ghost use Rattle.cr_meaning.specs.World.{closed};
ghost use Rattle.cr_meaning.specs.Language.{went};
ghost use Rattle.cr_meaning.specs.Nodes.{Act, last_in};
ghost use Rattle.cr_meaning.specs.Meaning.{if_end, while_end, do_end, for_end, switch_end, return_end};
ghost use Rattle.cr_exec_slices.specs.Shown.{Joined};
ghost use Rattle.cr_exec_turns.specs.Held.{shows};
ghost use Rattle.cr_exec_world.specs.Worlds.{world_of};
ghost use Rattle.cr_exec_statements.specs.Kept.{value_in, loop_left, switch_left, with_answer, passing, Gives};
ghost use Rattle.cr_exec_statements.specs.Parts.{second_end, returned_by, behind, as_before};

use crate::controls::{after_one, after_two, counted};
use crate::kept::{halted, last, passing};
use cr_eval::converted;
use cr_exec_slices::Halted;
use cr_exec_stack::Stack;
use cr_exec_turns::Held;
use cr_exec_world::{World, close};
use cr_meaning::{Form, Value};
use std::alloc::Global;

// ---- what a statement makes of the last answer

fn loop_left(answer: Held) -> Held
    ensures { result ≡ loop_left answer }
{
    match answer {
        Held::Broke | Held::Continued => Held::Next,
        other => other,
    }
}

/// `break` ends its loop (6.8.6.3p2), and a loop has no use for `continue` behind its body's end.
#[inline]
fn behind_loop(ended: Result<Held, Halted>) -> Result<Held, Halted>
    ensures { result ≡ with_answer loop_left ended }
{
    match ended {
        Ok(answer) => Ok(loop_left(answer)),
        Err(halted) => Err(halted),
    }
}

/// `break` ends its `switch`.
fn switch_left(answer: Held) -> Held
    ensures { result ≡ switch_left answer }
{
    match answer {
        Held::Broke => Held::Next,
        other => other,
    }
}

/// The lifetimes of the objects end with the statement that declares them (6.2.4p6).
#[inline]
fn close_behind(world: &mut World, ended: Result<Held, Halted>) -> Result<Held, Halted>
    ensures work { (act : Act) → Joined shows act ended (world_of world.old) → Joined shows (behind as_before closed act) result (world_of world.new) }
    ensures steps { world.new.steps ≡ world.old.steps }
{
    match ended {
        Ok(answer) => match close(world) {
            Ok(()) => Ok(answer),
            Err(halted) => Err(halted),
        },
        Err(halted) => Err(halted),
    }
}

// ---- selection and iteration (6.8.4, 6.8.5)

#[inline]
pub(crate) fn if_end(world: &World, node: u32, stack: &mut Stack<Held>) -> Result<Held, Halted>
    ensures work { Gives (λ answers. if_end node answers (world_of world.now)) stack.old.top.done result (world_of world.now) }
    ensures below { stack.new.below ≡ stack.old.below }
{
    if stack.done().len() == 1 {
        passing(after_one(world, node, stack.done()))
    } else {
        Ok(last(stack))
    }
}

#[inline]
fn second_end(world: &World, node: u32, stack: &mut Stack<Held>) -> Result<Held, Halted>
    ensures work { Gives (λ answers. second_end node answers (world_of world.now)) stack.old.top.done result (world_of world.now) }
    ensures below { stack.new.below ≡ stack.old.below }
{
    if stack.done().len() == 2 {
        passing(after_two(world, node, stack.done()))
    } else {
        Ok(last(stack))
    }
}

#[inline]
pub(crate) fn while_end(world: &World, node: u32, stack: &mut Stack<Held>) -> Result<Held, Halted>
    ensures work { Gives (λ answers. while_end node answers (world_of world.now)) stack.old.top.done result (world_of world.now) }
    ensures below { stack.new.below ≡ stack.old.below }
{
    behind_loop(if_end(world, node, stack))
}

#[inline]
pub(crate) fn do_end(world: &World, node: u32, stack: &mut Stack<Held>) -> Result<Held, Halted>
    ensures work { Gives (λ answers. do_end node answers (world_of world.now)) stack.old.top.done result (world_of world.now) }
    ensures below { stack.new.below ≡ stack.old.below }
{
    behind_loop(second_end(world, node, stack))
}

/// The objects of the declaration end with the loop (6.8.5p5).
#[inline]
pub(crate) fn for_end(world: &mut World, node: u32, stack: &mut Stack<Held>) -> Result<Held, Halted>
    ensures work { Gives (λ answers. for_end node answers (world_of world.old)) stack.old.top.done result (world_of world.new) }
    ensures below { stack.new.below ≡ stack.old.below }
    ensures steps { world.new.steps ≡ world.old.steps }
{
    let ended = behind_loop(second_end(world, node, stack));
    close_behind(world, ended)
}

/// The controlling expression of a `switch` without a matching label.
fn unmatched(world: &World, node: u32, done: &[Held]) -> Result<(), Halted>
    ensures { Gives (λ answers. switch_end node answers (world_of world.now)) done.now (passing result) (world_of world.now) }
{
    match done {
        [control] => counted(world, node, control),
        _ => Err(Halted::NoMemory),
    }
}

/// Where no label matches the value nothing was opened.
#[inline]
pub(crate) fn switch_end(
    world: &mut World,
    node: u32,
    stack: &mut Stack<Held>,
) -> Result<Held, Halted>
    ensures work { Gives (λ answers. switch_end node answers (world_of world.old)) stack.old.top.done result (world_of world.new) }
    ensures below { stack.new.below ≡ stack.old.below }
    ensures steps { world.new.steps ≡ world.old.steps }
{
    if stack.done().len() == 1 {
        passing(unmatched(world, node, stack.done()))
    } else {
        close_behind(world, Ok(switch_left(last(stack))))
    }
}

/// A compound statement (6.8.2).
#[inline]
pub(crate) fn block_end(world: &mut World, stack: &mut Stack<Held>) -> Result<Held, Halted>
    ensures work { Gives (λ answers. went (last_in answers) (closed (world_of world.old))) stack.old.top.done result (world_of world.new) }
    ensures below { stack.new.below ≡ stack.old.below }
    ensures steps { world.new.steps ≡ world.old.steps }
{
    close_behind(world, Ok(last(stack)))
}

// ---- `return` (6.8.6.4)

#[inline]
fn returned(
    alloc: Global,
    world: &World,
    node: u32,
    form: Form,
    value: &Value,
) -> Result<Held, Halted>
    ensures { Joined shows (returned_by node form value.now (world_of world.now)) result (world_of world.now) }
{
    match converted(alloc, &world.store, form, value) {
        Ok(value) => Ok(Held::Returned(value)),
        Err(trap) => Err(halted(trap, node)),
    }
}

fn returned_answer(
    alloc: Global,
    world: &World,
    node: u32,
    form: Form,
    answer: &Held,
) -> Result<Held, Halted>
    ensures { Joined shows (returned_by node form (value_in answer.now) (world_of world.now)) result (world_of world.now) }
{
    match answer {
        Held::Part(part) => returned(alloc, world, node, form, &part.value),
        _ => returned(alloc, world, node, form, &Value::Nothing),
    }
}

/// The value is converted as if by assignment (6.8.6.4p3): U15, U10.
#[inline]
pub(crate) fn return_end(
    alloc: Global,
    world: &World,
    node: u32,
    form: Form,
    done: &[Held],
) -> Result<Held, Halted>
    ensures { Gives (λ answers. return_end node form answers (world_of world.now)) done.now result (world_of world.now) }
{
    match done {
        [] => Ok(Held::Returned(Value::Nothing)),
        [answer, ..] => returned_answer(alloc, world, node, form, answer),
    }
}
