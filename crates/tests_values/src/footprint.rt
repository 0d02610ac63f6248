use crate::postfix::foot_of;
use crate::rows::{expect_text, pair, rows};
use cr_footprint::{Foot, FootEnd};
use std::alloc::{AllocError, Global};
use std::process::Abort;

// Expressions, and the conflict in them. `r10 w10` is `i++`, and with ` n ;` behind it `i++, 0`.
const OPEN_WRITES: &str = "
r10 w10 r10 |¦Conflict(1, 0)
r10 r10 w10 |¦Conflict(1, 0)
r10 w10 r10 w10 |¦Conflict(1, 0)
r10 w10 w10¦Conflict(1, 0)
r10 w10 l10¦Conflict(1, 0)
r10 w10 r11 w11 | w10¦Conflict(1, 0)
";

const SETTLED_WRITES: &str = "
r10 w10 n ; w10¦none
r10 w10 n ; l10¦none
r10 w10 n ; r10 w10 ; n |¦none
r10 w10 n ; r10 |¦Conflict(1, 0)
r10 r10 w10 n ; |¦Conflict(1, 0)
r10 w10 n ; r10 w10 n ; |¦Conflict(1, 0)
";

const NO_CONFLICTS: &str = "
r10 r10 |¦none
r10 l10 w10¦none
r10 w10 r01 w01 |¦none
n r10 w10 | l11¦none
";

// Each of the 9 cells (0, 0) to (2, 2) is written on the left, and some are read on the right: the least is named.
const LEAST: &str = "
n w00 w01 w02 w10 w11 w12 w20 w21 w22 n r20 ; r12 ; r11 ; |¦Conflict(1, 1)
n w00 w01 w02 w10 w11 w12 w20 w21 w22 n r22 ; r21 ; r09 ; |¦Conflict(2, 1)
n w00 w01 w02 w10 w11 w12 w20 w21 w22 n r90 ; r20 ; r02 ; |¦Conflict(0, 2)
";

fn shown(alloc: Global, found: Result<Foot, FootEnd>) -> Result<String, AllocError> {
    match found {
        Ok(_) => String::from_str(alloc, "none"),
        Err(end) => format!(in alloc; "{end:?}"),
    }
}

fn expect_rows(rt: &impl Abort, alloc: Global, table: &'static str) -> Result<(), AllocError> {
    for row in rows(table) {
        let (words, wanted) = pair(row);
        let found = shown(alloc, foot_of(alloc, words));
        expect_text(rt, found, wanted, row)?;
    }
    Ok(())
}

#[test]
fn an_open_write_conflicts_with_any_event_on_its_cell(rt: HostRuntime) -> Result<(), AllocError> {
    expect_rows(&rt, rt.alloc(), OPEN_WRITES)
}

#[test]
fn a_settled_write_conflicts_beside_it_alone(rt: HostRuntime) -> Result<(), AllocError> {
    expect_rows(&rt, rt.alloc(), SETTLED_WRITES)
}

#[test]
fn reads_and_other_cells_do_not_conflict(rt: HostRuntime) -> Result<(), AllocError> {
    expect_rows(&rt, rt.alloc(), NO_CONFLICTS)
}

#[test]
fn the_least_cell_is_named(rt: HostRuntime) -> Result<(), AllocError> {
    expect_rows(&rt, rt.alloc(), LEAST)
}

fn read_behind(alloc: Global, foot: Foot, cell: u32) -> Result<Foot, FootEnd> {
    Ok(foot.then(Foot::read(alloc, 1, cell)?)?)
}

fn read_before(alloc: Global, foot: Foot, cell: u32) -> Result<Foot, FootEnd> {
    Ok(Foot::read(alloc, 1, cell)?.then(foot)?)
}

fn update(alloc: Global, cell: u32) -> Result<Foot, FootEnd> {
    Foot::read(alloc, 1, cell)?.own_write(1, cell)
}

fn chain_from_the_left(alloc: Global) -> Result<Foot, FootEnd> {
    let mut foot = Foot::none(alloc);
    for cell in 0..1_000 {
        foot = read_behind(alloc, foot, cell)?;
    }
    foot.beside(update(alloc, 999)?)
}

fn chain_from_the_right(alloc: Global) -> Result<Foot, FootEnd> {
    let mut foot = Foot::none(alloc);
    for cell in 0..1_000 {
        foot = read_before(alloc, foot, cell)?;
    }
    update(alloc, 0)?.beside(foot)
}

// A chain as long as a long expression, from either side.
#[test]
fn long_chains_keep_every_cell(rt: HostRuntime) -> Result<(), AllocError> {
    let a = rt.alloc();
    let left = shown(a, chain_from_the_left(a));
    expect_text(&rt, left, "Conflict(1, 999)", "from the left")?;
    let right = shown(a, chain_from_the_right(a));
    expect_text(&rt, right, "Conflict(1, 0)", "from the right")
}
