// The evaluation of an expression, node by node.
use crate::unit::{ENDED, Unit, make_unit, single};
use crate::words::push_nodes;
use cr_eval::Table;
use cr_eval_join::{Part, argument};
use cr_exec_expressions::expression;
use cr_exec_slices::{Halted, Way};
use cr_exec_stack::Stack;
use cr_exec_turns::{Held, next};
use cr_exec_world::World;
use cr_footprint::Foot;
use cr_ints::IntKind;
use cr_meaning::{Op, Value};
use cr_memory::{Pointer, Trap};
use std::alloc::{AllocError, Global};

// What the function with this body returns.
fn returned(body: u32) -> Value {
    match body {
        0 => Value::Number(IntKind::Int, 0),
        1 => Value::Nothing,
        _ => Value::Pointer(single(ENDED)),
    }
}

fn halted(trap: Trap, node: u32) -> Halted {
    match trap {
        Trap::Undefined(number) => Halted::Undefined(number, node),
        Trap::Left(number) => Halted::Left(number, node),
        Trap::NoMemory => Halted::NoMemory,
    }
}

fn with_argument(alloc: Global, held: Option<Held>, foot: Foot) -> Result<Foot, Trap> {
    match held {
        Some(Held::Part(part)) => argument(alloc, part.foot, foot),
        _ => Err(Trap::NoMemory),
    }
}

// The events of a call's arguments. Those of its body are not the caller's.
fn arguments(alloc: Global, stack: &mut Stack<Held>) -> Result<Foot, Trap> {
    let mut foot = Foot::none(alloc);
    for _ in 0..stack.done().len() {
        foot = with_argument(alloc, stack.pop(), foot)?;
    }
    Ok(foot)
}

fn called(alloc: Global, node: u32, body: u32, stack: &mut Stack<Held>) -> Result<Held, Halted> {
    match arguments(alloc, stack) {
        Ok(foot) => Ok(Held::Part(Part {
            value: returned(body),
            foot,
        })),
        Err(trap) => Err(halted(trap, node)),
    }
}

// Hands a node's answer to the one that waits for it, or answers it.
fn hand_up(stack: &mut Stack<Held>) -> Result<Option<Held>, Halted> {
    if stack.hand_up() {
        return Ok(None);
    }
    match stack.pop() {
        Some(held) => Ok(Some(held)),
        None => Err(Halted::NoMemory),
    }
}

fn give(stack: &mut Stack<Held>, held: Held) -> Result<Option<Held>, Halted> {
    match stack.give(held) {
        Ok(()) => hand_up(stack),
        Err(_) => Err(Halted::NoMemory),
    }
}

fn begin(stack: &mut Stack<Held>, part: u32) -> Result<Option<Held>, Halted> {
    match stack.begin(part) {
        Ok(()) => Ok(None),
        Err(_) => Err(Halted::NoMemory),
    }
}

fn turn(
    alloc: Global,
    table: &Table,
    world: &mut World,
    stack: &mut Stack<Held>,
    op: &Op,
) -> Result<Option<Held>, Halted> {
    let node = stack.node();
    match next(op, stack.done()) {
        Way::Operand(part) => begin(stack, part),
        Way::Enter(body) => {
            let held = called(alloc, node, body, stack)?;
            give(stack, held)
        }
        Way::Ready => {
            expression(alloc, table, world, op, node, stack)?;
            hand_up(stack)
        }
        _ => Err(Halted::NoMemory),
    }
}

// A turn of the node at which the stack stands.
fn step(
    alloc: Global,
    table: &Table,
    world: &mut World,
    stack: &mut Stack<Held>,
) -> Result<Option<Held>, Halted> {
    match table.ops.as_slice().get(stack.node() as usize) {
        Some(op) => turn(alloc, table, world, stack, op),
        None => Err(Halted::NoMemory),
    }
}

fn evaluate(alloc: Global, table: &Table, world: &mut World, node: u32) -> Result<Held, Halted> {
    let mut stack = Stack::new(alloc, node);
    for _ in 0..100 {
        match step(alloc, table, world, &mut stack) {
            Ok(None) => {}
            Ok(Some(held)) => return Ok(held),
            Err(halted) => return Err(halted),
        }
    }
    Err(Halted::NoMemory)
}

// Of a pointer its cell, the cells of the array in which it points, and the cells of an element.
fn pointer_text(alloc: Global, pointer: Pointer) -> Result<String, AllocError> {
    match pointer {
        Pointer::Null => String::from_str(alloc, "null"),
        Pointer::At {
            cell,
            low,
            high,
            element,
            ..
        } => format!(in alloc; "{cell} of {low}..{high} by {}", element.cells),
    }
}

fn value_text(alloc: Global, value: &Value) -> Result<String, AllocError> {
    match value {
        Value::Nothing => String::from_str(alloc, "nothing"),
        Value::Number(kind, number) => format!(in alloc; "{kind:?} {number}"),
        Value::Pointer(pointer) => pointer_text(alloc, *pointer),
        Value::Place(_) => String::from_str(alloc, "place"),
        Value::Cells(cells) => format!(in alloc; "{} cells", cells.len()),
    }
}

fn text(alloc: Global, end: &Result<Held, Halted>) -> Result<String, AllocError> {
    match end {
        Ok(Held::Part(part)) => value_text(alloc, &part.value),
        Err(Halted::Undefined(number, node)) => format!(in alloc; "U{number} {node}"),
        Err(Halted::Left(number, node)) => format!(in alloc; "N{number} {node}"),
        _ => String::from_str(alloc, "no answer"),
    }
}

fn answer_in(alloc: Global, unit: &mut Unit, words: &str) -> Result<String, AllocError> {
    let node = push_nodes(alloc, &mut unit.table, words)?;
    let end = evaluate(alloc, &unit.table, &mut unit.world, node);
    text(alloc, &end)
}

/// What the expression of these words comes to: its value, or its first case and the number of the word where it is met.
pub(crate) fn answer(alloc: Global, words: &str) -> Result<String, AllocError> {
    let mut unit = make_unit(alloc)?;
    answer_in(alloc, &mut unit, words)
}
