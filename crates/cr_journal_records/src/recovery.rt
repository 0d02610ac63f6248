// What stands in a journal, and the gate behind it.
ghost use Rattle.std.specs.Prelude.{◌≡◌, ◌≢◌, ◌+◌, ◌*◌, ◌≤◌, ◌<◌, ◌^◌, ◌++◌, ◌∷◌, [], List, ℕ, true, length, map, IfOk, IsErrOf, OnOk, Ok, Some, None};
ghost use Rattle.std.specs.Global.{Vec};
ghost use Rattle.cr_outside.specs.Faults.{Rose};
ghost use Rattle.cr_journal_records.specs.Records.{AtRest, Body, IsKept, Stands};
ghost use Rattle.cr_outside_disk.specs.Moments.{AlwaysTold, EveryTold, LastsTold};
ghost use Rattle.cr_journal_records.specs.Reading.{IsSettled, OpenAt, ReadsTold, ShutAt, bodies_of};

use crate::records::close;
use cr_outside_disk::{Disk, DiskFault};
use std::alloc::Global;

/// How many bytes a journal has at most.
const MOST: u64 = 1 << 61;

/// Reads the bodies of the records that stand, and closes the gate behind them, which a stop may have torn. `len` is the disk's
/// length. For a journal of 2^61 bytes there is no memory.
pub fn recover<D: Disk>(disk: &mut D, alloc: Global, len: u64) -> Result<Vec<Vec<u8>>, DiskFault>
    requires ready { D.is_ready disk.old ≡ true }
    requires size { D.size disk.old ≡ len }

    // They are the records of the told file before the first that doesn't stand.
    ensures read { IfOk result (λ bodies. ReadsTold (D.story disk.old) (bodies_of bodies.items)) }

    // The call leaves the same to be read.
    ensures still { IfOk result (λ bodies. ReadsTold (D.story disk.new) (bodies_of bodies.items)) }

    // Where one stands, in every image the same stand, and the gate behind them is there and closed.
    ensures rests { IfOk result (λ bodies. bodies.items ≢ [] → EveryTold (AtRest (bodies_of bodies.items)) (D.story disk.new)) }

    // A stop at any moment of the call leaves an image that is kept, if each was before.
    ensures any_moment { (all : List Body) → EveryTold (IsKept all) (D.story disk.old) → AlwaysTold (IsKept all) (D.story disk.old) (D.story disk.new) }

    // What stands at one moment of the call stands at each later one.
    ensures lasts { (some : List Body) → LastsTold (Stands some) (D.story disk.old) (D.story disk.new) }
    ensures ready { OnOk result (D.is_ready disk.new ≡ true) }
    ensures long { IfOk result (λ bodies. bodies.items ≢ [] → 32 * length bodies.items + 1 ≤ D.size disk.new) }
    ensures later { D.faults disk.old ≤ D.faults disk.new }
    ensures failed { IsErrOf result DiskFault.Failed → Rose (D.faults disk.old) (D.faults disk.new) × (D.has_failed disk.new ≡ true) }
{
    if len >= MOST {
        return Err(DiskFault::NoMemory);
    }
    disk.sync(alloc)?;
    let bodies = read_bodies(disk, alloc, len)?;
    repair(disk, alloc, bodies.len() as u64, len)?;
    Ok(bodies)
}

// The bodies of the records up to the first that doesn't stand.
fn read_bodies<D: Disk>(disk: &mut D, alloc: Global, len: u64) -> Result<Vec<Vec<u8>>, DiskFault>
    requires ready { D.is_ready disk.old ≡ true }
    requires size { D.size disk.old ≡ len }
    ensures read { IfOk result (λ bodies. ReadsTold (D.story disk.old) (bodies_of bodies.items)) }
    ensures within { IfOk result (λ bodies. 32 * length bodies.items ≤ len) }
    ensures behind { IfOk result (λ bodies. bodies.items ≢ [] → 32 * length bodies.items < len) }
    ensures same { D.story disk.new ≡ D.story disk.old }
    ensures ready { D.is_ready disk.new ≡ true }
    ensures size { D.size disk.new ≡ D.size disk.old }
    ensures later { D.faults disk.old ≤ D.faults disk.new }
    ensures failed { IsErrOf result DiskFault.Failed → Rose (D.faults disk.old) (D.faults disk.new) × (D.has_failed disk.new ≡ true) }
{
    let mut bodies = Vec::new(alloc);
    let mut at: u64 = 0;
    while len - at >= 33 {
        let Some(body) = read_record(disk, alloc, at)? else {
            return Ok(bodies);
        };
        push(&mut bodies, body)?;
        at += 32;
    }
    Ok(bodies)
}

fn push(bodies: &mut Vec<Vec<u8>>, body: Vec<u8>) -> Result<(), DiskFault>
    ensures pushed { OnOk result (bodies.new.items ≡ bodies.old.items ++ body ∷ []) }
    ensures failed { IsErrOf result DiskFault.Failed → ⊥ }
{
    match bodies.push(body) {
        Ok(()) => Ok(()),
        Err(_) => Err(DiskFault::NoMemory),
    }
}

// The body of the record at a place, where its gate is open.
fn read_record<D: Disk>(disk: &mut D, alloc: Global, at: u64) -> Result<Option<Vec<u8>>, DiskFault>
    requires ready { D.is_ready disk.old ≡ true }
    requires within { at + 32 ≤ D.size disk.old }
    ensures shut { result ≡ Ok None → ShutAt (D.story disk.old) at }
    ensures opens { (body : Vec ℕ) → result ≡ Ok (Some body) → (length body.items ≡ 31) × OpenAt (D.story disk.old) at body.items }
    ensures same { D.story disk.new ≡ D.story disk.old }
    ensures ready { D.is_ready disk.new ≡ true }
    ensures size { D.size disk.new ≡ D.size disk.old }
    ensures later { D.faults disk.old ≤ D.faults disk.new }
    ensures failed { IsErrOf result DiskFault.Failed → Rose (D.faults disk.old) (D.faults disk.new) × (D.has_failed disk.new ≡ true) }
{
    let mut record = [0u8; 32];
    disk.read(alloc, at, &mut record)?;
    if record[0] != 1 {
        return Ok(None);
    }
    let body = copied(alloc, &record[1..])?;
    Ok(Some(body))
}

fn copied(alloc: Global, bytes: &[u8]) -> Result<Vec<u8>, DiskFault>
    ensures same { IfOk result (λ v. v.items ≡ bytes.now) }
    ensures failed { IsErrOf result DiskFault.Failed → ⊥ }
{
    match bytes.to_vec(alloc) {
        Ok(copy) => Ok(copy),
        Err(_) => Err(DiskFault::NoMemory),
    }
}

// Closes the gate behind the records that stand, where it is there and isn't closed.
fn repair<D: Disk>(disk: &mut D, alloc: Global, count: u64, len: u64) -> Result<(), DiskFault>
    requires ready { D.is_ready disk.old ≡ true }
    requires size { D.size disk.old ≡ len }
    requires within { 32 * count ≤ len }
    requires short { len < 2 ^ 61 }
    ensures still { OnOk result ((bodies : List Body) → length bodies ≡ count → ReadsTold (D.story disk.old) bodies → IsSettled (D.story disk.old)
        → ReadsTold (D.story disk.new) bodies) }
    ensures rests { OnOk result ((bodies : List Body) → length bodies ≡ count → IsSettled (D.story disk.old) → ReadsTold (D.story disk.old) bodies → bodies ≢ []
        → EveryTold (AtRest bodies) (D.story disk.new)) }
    ensures any_moment { (bodies all : List Body) → length bodies ≡ count → IsSettled (D.story disk.old) → ReadsTold (D.story disk.old) bodies
        → EveryTold (IsKept all) (D.story disk.old) → AlwaysTold (IsKept all) (D.story disk.old) (D.story disk.new) }
    ensures lasts { (bodies some : List Body) → length bodies ≡ count → IsSettled (D.story disk.old) → ReadsTold (D.story disk.old) bodies
        → LastsTold (Stands some) (D.story disk.old) (D.story disk.new) }
    ensures ready { OnOk result (D.is_ready disk.new ≡ true) }
    ensures long { OnOk result (32 * count < len → 32 * count + 1 ≤ D.size disk.new) }
    ensures later { D.faults disk.old ≤ D.faults disk.new }
    ensures failed { IsErrOf result DiskFault.Failed → Rose (D.faults disk.old) (D.faults disk.new) × (D.has_failed disk.new ≡ true) }
{
    if 32 * count >= len {
        return Ok(());
    }
    let mut gate = [0u8; 1];
    disk.read(alloc, 32 * count, &mut gate)?;
    if gate[0] == 0 {
        return Ok(());
    }
    close(disk, alloc, count)?;
    Ok(())
}
