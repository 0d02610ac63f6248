// Levels by what is given.
ghost use Rattle.std.specs.Prelude.{◌≡◌, ℕ, List, ◌++◌, IfOk, OnOk};
ghost use Rattle.pass_edit.specs.declared.change.Change.{Change as SpecChange};
ghost use Rattle.pass_levels.specs.declared.counted.Counted.{Counted as SpecCounted};
ghost use Rattle.pass_levels.specs.Gathered.{gathered};
ghost use Rattle.pass_levels.specs.Level.{level_of};

use crate::Counted;
use crate::order::in_place_order;
use pass_edit::Edits;
use std::alloc::{AllocError, Global};

/// A level over a tree: what each node gives.
pub trait Level {
    /// The counted edits of a node.
    ghost gives: { Self → ℕ → List SpecCounted };

    /// Puts a node's edits behind all others. The error is want of memory; some of them may be there then.
    fn give(&self, alloc: Global, node: usize, all: &mut Vec<Counted>) -> Result<(), AllocError>
        ensures { OnOk result (all.new.items ≡ all.old.items ++ gives self.now node) };
}

/// The edits that the nodes below `nodes` give, in the order of their first tokens, outer ones first. The error is want of memory.
pub fn list<L: Level>(alloc: Global, nodes: usize, level: &L) -> Result<Edits, AllocError>
    ensures { IfOk result (λ edits. edits ≡ level_of (L.gives level.now) nodes) }
{
    let mut all = Vec::new(alloc);
    for node in 0..nodes {
        level.give(alloc, node, &mut all)?;
    }
    in_place_order(alloc, all.as_slice())
}

/// A level over numbers, as those of runs or entities: what each number gives.
pub trait Turns {
    /// The edits of a number.
    ghost gives: { Self → ℕ → List (List SpecChange) };

    /// Puts a number's edits behind all others. The error is want of memory; some of them may be there then.
    fn give(&self, alloc: Global, at: usize, edits: &mut Edits) -> Result<(), AllocError>
        ensures { OnOk result (edits.new ≡ edits.old ++ gives self.now at) };
}

/// The edits that the numbers below `count` give, in their order. The error is want of memory.
pub fn in_turn<T: Turns>(alloc: Global, count: usize, turns: &T) -> Result<Edits, AllocError>
    ensures { IfOk result (λ edits. edits ≡ gathered (T.gives turns.now) count) }
{
    let mut edits = Edits::new(alloc);
    for at in 0..count {
        turns.give(alloc, at, &mut edits)?;
    }
    Ok(edits)
}
