// Conflicts between the arguments of a call, of which no one is sequenced before another (C11 6.5.2.2p10).
#![tactic(auto, using(cr_eval::proofs::Answering::answers, cr_exec_world::proofs::Working::worked, cr_exec_world::proofs::Working::unsaid, cr_exec_world::proofs::Working::left, cr_exec_world::proofs::Working::undefined))]

ghost use Rattle.std.specs.Prelude.{◌≡◌, true, false, MatchBool, IfOk};
ghost use Rattle.std.specs.List.{list_any};
ghost use Rattle.cr_footprint.specs.Cell.{Cell, holds, IsRising};
ghost use Rattle.cr_footprint.specs.Foot.{sets, meets};
ghost use Rattle.cr_exec_calls.specs.Clashes.{hits, MeetsOne, MeetsAny, MeetsLater, Clashes};
ghost use Rattle.cr_exec_calls.specs.Taken.{AddsHeld};

use cr_eval_join::argument;
use cr_exec_turns::Held;
use cr_footprint::Foot;
use cr_memory::Trap;
use std::alloc::{AllocError, Global};

/// Up to so many arguments are compared pair by pair; more are joined, from the last one backwards.
const FEW: usize = 16;

/// Whether a list in rising order has some of these cells.
fn has_some(rising: &[(u32, u32)], cells: &[(u32, u32)]) -> bool
    requires { IsRising rising.now }
    ensures { result ≡ list_any (holds rising.now) cells.now }
{
    let mut rest = cells;
    while let Some((cell, more)) = rest.split_first() {
        if rising.binary_search(cell).is_ok() {
            return true;
        }
        rest = more;
    }
    false
}

/// Whether something is written by the one and read or written by the other.
fn hits(one: &Foot, other: &Foot) -> bool
    ensures { MatchBool result ((c : Cell) × (hits (sets one.now) (sets other.now) c ≡ true)) ((c : Cell) → hits (sets one.now) (sets other.now) c ≡ false) }
{
    has_some(other.reads(), one.writes()) || has_some(other.writes(), one.writes())
}

fn meets(left: &Foot, right: &Foot) -> bool
    ensures { MatchBool result ((c : Cell) × (meets (sets left.now) (sets right.now) c ≡ true)) ((c : Cell) → meets (sets left.now) (sets right.now) c ≡ false) }
{
    hits(left, right) || hits(right, left)
}

/// Whether events of an argument conflict with those of another one.
fn meets_one(foot: &Foot, other: &Held) -> bool
    ensures { MeetsOne foot.now other.now result }
{
    match other {
        Held::Part(part) => meets(foot, &part.foot),
        _ => false,
    }
}

/// Whether events of an argument conflict with those of some later one.
fn meets_any(foot: &Foot, later: &[Held]) -> bool
    ensures { MeetsAny foot.now later.now result }
{
    let mut rest = later;
    while let Some((other, more)) = rest.split_first() {
        if meets_one(foot, other) {
            return true;
        }
        rest = more;
    }
    false
}

fn meets_later(argument: &Held, later: &[Held]) -> bool
    ensures { MeetsLater argument.now later.now result }
{
    match argument {
        Held::Part(part) => meets_any(&part.foot, later),
        _ => false,
    }
}

/// Whether events of two arguments conflict, pair by pair.
fn clash_in_pairs(done: &[Held]) -> bool
    ensures { Clashes done.now result }
{
    let mut rest = done;
    while let Some((argument, later)) = rest.split_first() {
        if meets_later(argument, later) {
            return true;
        }
        rest = later;
    }
    false
}

/// An argument's events before those of the later ones: U12. `NoMemory` also where it is no expression's answer.
fn with_argument(alloc: Global, held: &Held, later: Foot) -> Result<Foot, Trap>
    ensures { AddsHeld held.now later result }
{
    let Held::Part(part) = held else {
        return Err(Trap::NoMemory);
    };
    match part.foot.copied() {
        Ok(foot) => argument(alloc, foot, later),
        Err(_) => Err(Trap::NoMemory),
    }
}

/// Whether events of two arguments conflict, where all are joined: each costs by its own cells.
fn clash_joined(alloc: Global, done: &[Held]) -> Result<bool, AllocError>
    ensures { IfOk result (λ found. Clashes done.now found) }
{
    let mut later = Foot::none(alloc);
    let mut left = done;
    while let Some((held, before)) = left.split_last() {
        later = match with_argument(alloc, held, later) {
            Ok(foot) => foot,
            Err(Trap::Undefined(_)) => return Ok(true),
            Err(_) => return Err(AllocError),
        };
        left = before;
    }
    Ok(false)
}

/// Whether events of two arguments conflict. The error is want of memory, or an answer that is no expression's.
pub(crate) fn clashes(alloc: Global, done: &[Held]) -> Result<bool, AllocError>
    ensures { IfOk result (λ found. Clashes done.now found) }
{
    if done.len() <= FEW {
        Ok(clash_in_pairs(done))
    } else {
        clash_joined(alloc, done)
    }
}
