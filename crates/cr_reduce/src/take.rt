// An accepted variant becomes the file.
ghost use Rattle.std.specs.Prelude.{◌≡◌, ◌<◌, ◌≤◌, ◌+◌, OnOk, OnErr, ℕ};
ghost use Rattle.cr_reduce.specs.Sizes.{HasSize, IsSmaller};
ghost use Rattle.cr_reduce.specs.Reduction.{taken};
ghost use Rattle.cr_reduce.specs.Walk.{IsSound, IsTaken, IsVariantAt, state_of, work_of};

use crate::end::Accepted;
use crate::measure::size_of;
use crate::walk::Walk;
use cr_cursor::{Passes, cursor_at, position_of, positions};
use cr_outside::NoMemory;
use std::alloc::Global;

/// Makes the accepted variant of a position the file. Without memory nothing changes.
pub fn take<P: Passes>(
    alloc: Global,
    passes: &P,
    walk: &mut Walk<P::Prep>,
    position: u64,
    variant: Vec<u8>,
) -> Result<(), NoMemory>
    requires sound { IsSound (P.offers passes.now) (P.offer passes.now) walk.old }
    requires from { walk.old.position ≤ position }
    requires below { position < walk.old.count }
    requires variant { IsVariantAt (P.offer passes.now walk.old.prep walk.old.file.items) position variant.items }
    requires smaller { IsSmaller variant.items walk.old.file.items }
    ensures taken { OnOk result (IsTaken (P.offers passes.now) (state_of (P.offer passes.now) walk.old) position (state_of (P.offer passes.now) walk.new)) }
    ensures sound { OnOk result (IsSound (P.offers passes.now) (P.offer passes.now) walk.new) }
    ensures less { OnOk result (work_of walk.new < work_of walk.old) }
    ensures same { OnErr result (state_of (P.offer passes.now) walk.new ≡ state_of (P.offer passes.now) walk.old) }
{
    let at = cursor_at(passes, &walk.prep, position);
    let size = size_of(alloc, &variant)?;
    let prep = passes.prepare(alloc, &variant)?;
    let turn = walk.turns + (position - walk.position) + 1;
    let count = positions(passes, &prep);
    let next = position_of(passes, &prep, at);
    walk.accepted.push(Accepted { at, size, turn })?;
    walk.file = variant;
    walk.size = size;
    walk.prep = prep;
    walk.count = count;
    walk.position = next;
    walk.changed = true;
    walk.turns = turn;
    Ok(())
}
