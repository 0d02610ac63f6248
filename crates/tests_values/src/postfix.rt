// Expressions in postfix. `r12` is a read of cell 2 of object 1, `t12` a touch of it; `w12`, `l12` and `v12` are an operator's own
// write, read and touch of it, `W1` and `R1` its own writes and reads of the first four cells of object 1; `n` is no event; `|` puts
// two footprints side by side, and `;` one before the other.
use cr_footprint::{Foot, FootEnd};
use std::alloc::Global;

fn digit(byte: u8) -> u32 {
    u32::from(byte.saturating_sub(b'0'))
}

fn pop(stack: &mut Vec<Foot>) -> Result<Foot, FootEnd> {
    match stack.pop() {
        Some(foot) => Ok(foot),
        None => Err(FootEnd::NoMemory),
    }
}

fn beside(stack: &mut Vec<Foot>) -> Result<Foot, FootEnd> {
    let top = pop(stack)?;
    pop(stack)?.beside(top)
}

fn then(stack: &mut Vec<Foot>) -> Result<Foot, FootEnd> {
    let top = pop(stack)?;
    Ok(pop(stack)?.then(top)?)
}

// What an operator's own events make of its operands'.
fn own(top: Foot, word: &[u8]) -> Result<Foot, FootEnd> {
    match word {
        [b'w', object, cell] => top.own_write(digit(*object), digit(*cell)),
        [b'l', object, cell] => top.own_read(digit(*object), digit(*cell)),
        [b'v', object, cell] => top.own_touch(digit(*object), digit(*cell)),
        [b'W', object] => top.own_writes(digit(*object), 0..4),
        [b'R', object] => top.own_reads(digit(*object), 0..4),
        _ => Err(FootEnd::NoMemory),
    }
}

fn foot(alloc: Global, stack: &mut Vec<Foot>, word: &[u8]) -> Result<Foot, FootEnd> {
    match word {
        [b'r', object, cell] => Ok(Foot::read(alloc, digit(*object), digit(*cell))?),
        [b't', object, cell] => Ok(Foot::touch(alloc, digit(*object), digit(*cell))?),
        [b'n'] => Ok(Foot::none(alloc)),
        [b'|'] => beside(stack),
        [b';'] => then(stack),
        _ => own(pop(stack)?, word),
    }
}

/// The footprint of an expression.
pub(crate) fn foot_of(alloc: Global, words: &str) -> Result<Foot, FootEnd> {
    let mut stack = Vec::new(alloc);
    for word in words.split_whitespace() {
        let foot = foot(alloc, &mut stack, word.as_bytes())?;
        stack.push(foot).map_err(|_| FootEnd::NoMemory)?;
    }
    pop(&mut stack)
}
