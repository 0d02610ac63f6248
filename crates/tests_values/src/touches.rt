use crate::postfix::foot_of;
use crate::rows::{expect_text, pair, rows};
use cr_footprint::{Foot, FootEnd};
use std::alloc::{AllocError, Global};
use std::process::Abort;
use std::test::Fail;

// Expressions, and the conflict in them or the cells that they read and those that they write. With `volatile int v` in cell 10 and structs of four cells the rows are in turn: `v + v`; `f(v, v)`; a touch
// beside a read; `v = v + 1`; `v++`; `v && v`; `(v = 1) + v`; a touch above an open write; `s = t`; `(s = t).m + s.m`;
// `s = (s.m = 1, s)`; a struct read, and written, above open writes in it; one written beside them; events of every kind.
const TOUCHES: &str = "
t10 t10 |¦Conflict(1, 0)
t10 n ; t10 n ; |¦Conflict(1, 0)
t10 r10 |¦Conflict(1, 0)
n n v10 | w10¦[] [(1, 0)]
n v10 w10¦[] [(1, 0)]
t10 t10 ;¦[] [(1, 0)]
n w10 t10 |¦Conflict(1, 0)
n w10 v10¦Conflict(1, 0)
n n R2 | W1¦[(2, 0), (2, 1), (2, 2), (2, 3)] [(1, 0), (1, 1), (1, 2), (1, 3)]
n W1 r12 |¦Conflict(1, 2)
n w12 n R1 ; W1¦[(1, 0), (1, 1), (1, 2), (1, 3)] [(1, 0), (1, 1), (1, 2), (1, 3)]
n w13 w12 R1¦Conflict(1, 2)
n w13 w12 W1¦Conflict(1, 2)
n w14 W1¦[] [(1, 0), (1, 1), (1, 2), (1, 3), (1, 4)]
r31 v12 r21 | w11 w09¦[(2, 1), (3, 1)] [(0, 9), (1, 1), (1, 2)]
";

fn shown(alloc: Global, found: Result<Foot, FootEnd>) -> Result<String, AllocError> {
    match found {
        Ok(foot) => format!(in alloc; "{:?} {:?}", foot.reads(), foot.writes()),
        Err(end) => format!(in alloc; "{end:?}"),
    }
}

fn expect_row(rt: &impl Abort, alloc: Global, row: &str) -> Result<(), AllocError> {
    let (words, wanted) = pair(row);
    expect_text(rt, shown(alloc, foot_of(alloc, words)), wanted, row)
}

#[test]
fn a_touch_is_settled_and_conflicts_as_a_write(rt: HostRuntime) -> Result<(), AllocError> {
    for row in rows(TOUCHES) {
        expect_row(&rt, rt.alloc(), row)?;
    }
    Ok(())
}

// Ten cells and ten, five of them the same, are more than are put to a set one by one.
fn two_structs(alloc: Global) -> Result<Foot, FootEnd> {
    let left = Foot::none(alloc).own_reads(1, 0..10)?;
    let right = Foot::none(alloc).own_reads(1, 5..15)?;
    left.beside(right)
}

#[test]
fn the_cells_of_two_structs_are_those_of_either(rt: HostRuntime) -> Result<(), Fail> {
    let both = two_structs(rt.alloc())?;
    assert!(rt; both.reads().len() == 15, "{} reads", both.reads().len());
    assert!(rt; both.writes().is_empty(), "not empty");
    Ok(())
}
