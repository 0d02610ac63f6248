// Where the reduction stands.
ghost use Rattle.std.specs.Prelude.{◌≡◌, ◌<◌, ◌≤◌, ◌+◌, OnOk, OnErr, IfErr, IfOk, ℕ};
ghost use Rattle.std.specs.Arc.{arc_value};
ghost use Rattle.cr_reduce.specs.Ends.{end_of_walk};
ghost use Rattle.cr_reduce.specs.Reduction.{start_of};
ghost use Rattle.cr_reduce.specs.Sizes.{HasSize, IsSmaller};
ghost use Rattle.cr_reduce.specs.Walk.{IsTaken, IsVariantAt};
ghost use Rattle.cr_standing.specs.Walk.{IsShared, IsSound, plain, standing_at};

use cr_cursor::{NoMemory, Passes, cursor_at, position_of, positions};
use cr_reduce::{Accepted, End, Why, size_of};
use cr_standing_workers::Shared;
use std::alloc::{AllocError, Global};
use std::sync::Arc;

/// Where the walk stands.
#[derive(Drop)]
pub struct Walk<T> {
    pub file: Vec<u8>,
    /// The same file with its size and its index, as the threads have it.
    pub shared: Arc<Shared<T>, Global>,
    /// How many variants the file has.
    pub count: u64,
    /// The next position.
    pub position: u64,
    /// Whether this round accepted something.
    pub changed: bool,
    pub accepted: Vec<Accepted>,
    /// How many positions were looked at.
    pub turns: u64,
}

/// A file with its size and its index, for all threads.
fn share<P: Passes>(
    alloc: Global,
    passes: &P,
    file: &[u8],
) -> Result<Arc<Shared<P::Prep>, Global>, NoMemory>
    requires { (n : ℕ) × HasSize file.now n }
    ensures { IfOk result (λ shared. IsShared (P.offers passes.now) (P.offer passes.now) file.now (arc_value shared)) }
{
    let size = size_of(alloc, file)?;
    let prep = passes.prepare(alloc, file)?;
    let mut bytes = Vec::with_capacity(alloc, file.len())?;
    bytes.extend_from_slice(file)?;
    let Ok(shared) = Arc::new(alloc, Shared { bytes, size, prep }) else {
        return Err(AllocError);
    };
    Ok(shared)
}

/// The walk before its first position, or the file back where no memory is left.
pub fn begin<P: Passes>(alloc: Global, passes: &P, file: Vec<u8>) -> Result<Walk<P::Prep>, Vec<u8>>
    requires { (n : ℕ) × HasSize file.items n }
    ensures sound { IfOk result (IsSound (P.offers passes.now) (P.offer passes.now)) }
    ensures offered { IfOk result (λ walk. P.offers passes.now file.items (P.offer passes.now (arc_value walk.shared).prep file.items)) }
    ensures start { IfOk result (λ walk. standing_at (P.offer passes.now) walk ≡ start_of file.items (P.offer passes.now (arc_value walk.shared).prep file.items)) }
    ensures back { IfErr result (λ given. given ≡ file) }
{
    let Ok(shared) = share(alloc, passes, &file) else {
        return Err(file);
    };
    let count = positions(passes, &shared.prep);
    Ok(Walk {
        file,
        shared,
        count,
        position: 0,
        changed: false,
        accepted: Vec::new(alloc),
        turns: 0,
    })
}

/// Makes the accepted variant of a position the file. Without memory nothing changes.
pub fn take<P: Passes>(
    alloc: Global,
    passes: &P,
    walk: &mut Walk<P::Prep>,
    position: u64,
    variant: Vec<u8>,
) -> Result<(), NoMemory>
    requires sound { IsSound (P.offers passes.now) (P.offer passes.now) walk.old }
    requires from { walk.old.position ≤ position }
    requires below { position < walk.old.count }
    requires variant { IsVariantAt (P.offer passes.now (arc_value walk.old.shared).prep walk.old.file.items) position variant.items }
    requires smaller { IsSmaller variant.items walk.old.file.items }
    ensures taken { OnOk result (IsTaken (P.offers passes.now) (standing_at (P.offer passes.now) walk.old) position (standing_at (P.offer passes.now) walk.new)) }
    ensures sound { OnOk result (IsSound (P.offers passes.now) (P.offer passes.now) walk.new) }
    ensures same { OnErr result (standing_at (P.offer passes.now) walk.new ≡ standing_at (P.offer passes.now) walk.old) }
{
    let at = cursor_at(passes, &walk.shared.prep, position);
    let shared = share(alloc, passes, &variant)?;
    let turn = walk.turns + (position - walk.position) + 1;
    let count = positions(passes, &shared.prep);
    let next = position_of(passes, &shared.prep, at);
    walk.accepted.push(Accepted {
        at,
        size: shared.size,
        turn,
    })?;
    walk.file = variant;
    walk.shared = shared;
    walk.count = count;
    walk.position = next;
    walk.changed = true;
    walk.turns = turn;
    Ok(())
}

/// What a walk ended with.
pub fn end_of<T: Drop>(walk: Walk<T>, why: Why) -> End
    ensures { result ≡ end_of_walk (plain walk) why }
{
    let Walk {
        file,
        shared: _,
        count: _,
        position: _,
        changed: _,
        accepted,
        turns,
    } = walk;
    End {
        file,
        accepted,
        turns,
        why,
    }
}
