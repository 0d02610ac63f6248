// Which operand comes next.
use crate::rows::{expect_text, rows, triple};
use crate::unit::{make_unit, value_of};
use crate::words::push_nodes;
use cr_eval::Table;
use cr_eval_join::{Next, Part, next};
use cr_footprint::Foot;
use cr_meaning::Op;
use std::alloc::{AllocError, Global};

// An expression's nodes in postfix, the values of the last one's operands so far, and what comes next: the operand of this number of
// word, the body of a function, or the node's own work. A value is a number, `n` the null pointer, `e` a pointer to an object whose
// lifetime has ended, `g` none. By hand from C11 6.5.2.2p10, 6.5.13p4, 6.5.14p4 and 6.5.15p4.
const TURNS: &str = "
z:i 1 +i¦¦operand 0
z:i 1 +i¦5¦operand 1
z:i 1 +i¦5 6¦ready
i:i¦¦ready
z:i 1 &&¦¦operand 0
z:i 1 &&¦-1¦operand 1
z:i 1 &&¦0¦ready
z:i 1 &&¦1 0¦ready
p:* 1 &&¦n¦ready
p:* 1 &&¦e¦operand 1
g0 1 &&¦g¦ready
z:i 1 ||¦0¦operand 1
z:i 1 ||¦2¦ready
z:i 1 ||¦0 1¦ready
z:i 1 2 ?i¦¦operand 0
z:i 1 2 ?i¦3¦operand 1
z:i 1 2 ?i¦0¦operand 2
z:i 1 2 ?i¦0 2¦ready
g0 1 2 ?i¦g¦ready
1 2 f2¦¦operand 0
1 2 f2¦1¦operand 1
1 2 f2¦1 2¦body 0
g0¦¦body 1
";

fn parts(alloc: Global, words: &str) -> Result<Vec<Part>, AllocError> {
    let mut parts = Vec::new(alloc);
    for word in words.split_whitespace() {
        parts.push(Part {
            value: value_of(word),
            foot: Foot::none(alloc),
        })?;
    }
    Ok(parts)
}

fn next_of(alloc: Global, op: &Op, values: &str) -> Result<String, AllocError> {
    let done = parts(alloc, values)?;
    match next(op, &done) {
        Next::Operand(node) => format!(in alloc; "operand {node}"),
        Next::Call(body) => format!(in alloc; "body {body}"),
        Next::Ready => String::from_str(alloc, "ready"),
    }
}

fn turn_in(
    alloc: Global,
    table: &mut Table,
    words: &str,
    values: &str,
) -> Result<String, AllocError> {
    push_nodes(alloc, table, words)?;
    match table.ops.as_slice().last() {
        Some(op) => next_of(alloc, op, values),
        None => Err(AllocError),
    }
}

fn turn(alloc: Global, words: &str, values: &str) -> Result<String, AllocError> {
    let mut unit = make_unit(alloc)?;
    turn_in(alloc, &mut unit.table, words, values)
}

#[test]
fn operands_come_in_turn_and_only_those_that_are_evaluated(
    rt: HostRuntime,
) -> Result<(), AllocError> {
    for row in rows(TURNS) {
        let (words, values, wanted) = triple(row);
        expect_text(&rt, turn(rt.alloc(), words, values), wanted, row)?;
    }
    Ok(())
}
