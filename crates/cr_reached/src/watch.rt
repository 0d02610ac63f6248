// The watch.
ghost use Rattle.std.specs.Prelude.{◌≡◌, ◌<◌, [], IfOk, false, length, replicate, slice_set, true};
ghost use Rattle.cr_meaning.specs.World.{Program};
ghost use Rattle.cr_reached.specs.Evaluated.{KnowsBegun};

use cr_exec::Watch;
use cr_footprint::{Foot, NoMemory};
use std::alloc::{AllocError, Global};

/// Sees which nodes are reached.
#[derive(Drop)]
pub(crate) struct ReachWatch {
    /// For each node whether it has begun.
    pub(crate) began: Vec<bool>,
}

fn unmarked(alloc: Global, nodes: usize) -> Result<Vec<bool>, AllocError>
    ensures { IfOk result (λ column. column.items ≡ replicate nodes false) }
{
    vec![in alloc; false; nodes]
}

fn mark(column: &mut Vec<bool>, at: usize)
    requires { at < length column.old.items }
    ensures { column.new.items ≡ slice_set column.old.items at true }
{
    column[at] = true;
}

impl ReachWatch {
    /// Nothing has begun.
    pub(crate) fn new(alloc: Global, nodes: usize) -> Result<ReachWatch, AllocError>
        ensures { IfOk result (λ watch. (p : Program) → KnowsBegun watch p []) }
    {
        let began = unmarked(alloc, nodes)?;
        Ok(ReachWatch { began })
    }
}

impl Watch for ReachWatch {
    ghost knows = { KnowsBegun };

    #[inline]
    fn begin(&mut self, node: u32) -> Result<(), NoMemory> {
        let at = node as usize;
        if at < self.began.len() {
            mark(&mut self.began, at);
            Ok(())
        } else {
            Err(AllocError)
        }
    }

    #[inline]
    fn end(&mut self, _node: u32, _foot: &Foot) -> Result<(), NoMemory> {
        Ok(())
    }
}
