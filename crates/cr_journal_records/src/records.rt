// The records of a journal on a disk.
ghost use Rattle.std.specs.Prelude.{◌≡◌, ◌+◌, ◌*◌, ◌≤◌, ◌<◌, ◌^◌, ◌++◌, ◌∷◌, [], List, ℕ, true, length, IfOk, IsErrOf, OnOk};
ghost use Rattle.cr_outside.specs.Faults.{Rose};
ghost use Rattle.cr_journal_records.specs.Records.{AtRest, Body, HasGate, IsFront, IsKept, LastsWhere, Stands, StandsNone};
ghost use Rattle.cr_outside_disk.specs.Moments.{AlwaysTold, EveryTold, LastsTold};

use cr_outside_disk::{Disk, DiskFault};
use std::alloc::{AllocError, Global};

/// How many records a journal has at most.
const MOST: u64 = 1 << 56;

/// Makes an empty journal of whatever stands in the file, and adds its first record.
pub fn begin<D: Disk>(disk: &mut D, alloc: Global, body: &[u8]) -> Result<(), DiskFault>
    requires ready { D.is_ready disk.old ≡ true }
    requires body { length body.now ≡ 31 }

    // A stop at any moment of the call leaves an image that is kept, if each was before.
    ensures any_moment { (all : List Body) → IsFront (body.now ∷ []) all
        → EveryTold (IsKept all) (D.story disk.old) → AlwaysTold (IsKept all) (D.story disk.old) (D.story disk.new) }

    // Where none stood, what stands at one moment of the call stands at each later one.
    ensures lasts { StandsNone (D.story disk.old) → (some : List Body) → LastsTold (Stands some) (D.story disk.old) (D.story disk.new) }

    // Once it answered Ok, the record stands in every image.
    ensures begun { OnOk result (EveryTold (AtRest (body.now ∷ [])) (D.story disk.new)) }
    ensures ready { OnOk result (D.is_ready disk.new ≡ true) }
    ensures long { OnOk result (33 ≤ D.size disk.new) }
    ensures later { D.faults disk.old ≤ D.faults disk.new }
    ensures failed { IsErrOf result DiskFault.Failed → Rose (D.faults disk.old) (D.faults disk.new) × (D.has_failed disk.new ≡ true) }
{
    empty(disk, alloc)?;
    add(disk, alloc, 0, body)?;
    Ok(())
}

// Makes a journal without records: one closed gate.
fn empty<D: Disk>(disk: &mut D, alloc: Global) -> Result<(), DiskFault>
    requires { D.is_ready disk.old ≡ true }
    ensures any_moment { (all : List Body) → EveryTold (IsKept all) (D.story disk.old) → AlwaysTold (IsKept all) (D.story disk.old) (D.story disk.new) }
    ensures lasts { StandsNone (D.story disk.old) → (some : List Body) → LastsTold (Stands some) (D.story disk.old) (D.story disk.new) }
    ensures at_rest { OnOk result (EveryTold (AtRest []) (D.story disk.new)) }
    ensures ready { OnOk result (D.is_ready disk.new ≡ true) }
    ensures long { OnOk result (1 ≤ D.size disk.new) }
    ensures later { D.faults disk.old ≤ D.faults disk.new }
    ensures failed { IsErrOf result DiskFault.Failed → Rose (D.faults disk.old) (D.faults disk.new) × (D.has_failed disk.new ≡ true) }
{
    disk.cut(alloc, 0)?;
    disk.sync(alloc)?;
    disk.write(alloc, 0, &[0])?;
    disk.sync(alloc)
}

/// Adds record `index`, counted from 0, behind the ones that stand: its body and the closed gate of the next in one write, then,
/// in a write of its own, its open gate. A journal of 2^56 records has no memory for another.
pub fn add<D: Disk>(disk: &mut D, alloc: Global, index: u64, body: &[u8]) -> Result<(), DiskFault>
    requires ready { D.is_ready disk.old ≡ true }
    requires gate_there { 32 * index + 1 ≤ D.size disk.old }
    requires body { length body.now ≡ 31 }

    // A stop at any moment of the call leaves an image that is kept.
    ensures any_moment { (bodies all : List Body) → length bodies ≡ index → IsFront (bodies ++ body.now ∷ []) all
        → EveryTold (AtRest bodies) (D.story disk.old) → AlwaysTold (IsKept all) (D.story disk.old) (D.story disk.new) }

    // What stands at one moment of the call stands at each later one.
    ensures lasts { LastsWhere AtRest index (D.story disk.old) (D.story disk.new) }

    // Once it answered Ok, the record stands in every image.
    ensures added { OnOk result ((bodies : List Body) → length bodies ≡ index → EveryTold (AtRest bodies) (D.story disk.old)
        → EveryTold (AtRest (bodies ++ body.now ∷ [])) (D.story disk.new)) }
    ensures ready { OnOk result (D.is_ready disk.new ≡ true) }
    ensures long { OnOk result (32 * index + 33 ≤ D.size disk.new) }
    ensures later { D.faults disk.old ≤ D.faults disk.new }
    ensures failed { IsErrOf result DiskFault.Failed → Rose (D.faults disk.old) (D.faults disk.new) × (D.has_failed disk.new ≡ true) }
{
    if index >= MOST {
        return Err(DiskFault::NoMemory);
    }
    let gate = 32 * index;
    let Ok(whole) = record(alloc, body) else {
        return Err(DiskFault::NoMemory);
    };
    disk.write(alloc, gate + 1, &whole[1..])?;
    disk.sync(alloc)?;
    disk.write(alloc, gate, &whole[..1])?;
    disk.sync(alloc)?;
    Ok(())
}

// An open gate, a body, and the closed gate of the next record.
fn record(alloc: Global, body: &[u8]) -> Result<Vec<u8>, AllocError>
    ensures { IfOk result (λ bytes. bytes.items ≡ 1 ∷ (body.now ++ 0 ∷ [])) }
{
    let mut bytes = Vec::new(alloc);
    bytes.push(1)?;
    bytes.extend_from_slice(body)?;
    bytes.push(0)?;
    Ok(bytes)
}

/// Closes the gate of the first record that doesn't stand, where it is there and isn't closed.
pub fn close<D: Disk>(disk: &mut D, alloc: Global, count: u64) -> Result<(), DiskFault>
    requires ready { D.is_ready disk.old ≡ true }
    requires there { 32 * count + 1 ≤ D.size disk.old }
    requires few { count < 2 ^ 56 }
    ensures any_moment { (bodies all : List Body) → length bodies ≡ count → EveryTold (λ image. IsKept all image × HasGate bodies image) (D.story disk.old)
        → AlwaysTold (IsKept all) (D.story disk.old) (D.story disk.new) }
    ensures lasts { LastsWhere HasGate count (D.story disk.old) (D.story disk.new) }
    ensures closed { OnOk result ((bodies : List Body) → length bodies ≡ count → EveryTold (HasGate bodies) (D.story disk.old)
        → EveryTold (AtRest bodies) (D.story disk.new)) }
    ensures ready { OnOk result (D.is_ready disk.new ≡ true) }
    ensures long { OnOk result (32 * count + 1 ≤ D.size disk.new) }
    ensures later { D.faults disk.old ≤ D.faults disk.new }
    ensures failed { IsErrOf result DiskFault.Failed → Rose (D.faults disk.old) (D.faults disk.new) × (D.has_failed disk.new ≡ true) }
{
    disk.write(alloc, 32 * count, &[0])?;
    disk.sync(alloc)?;
    Ok(())
}
