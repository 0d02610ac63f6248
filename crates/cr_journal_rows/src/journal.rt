// A journal on a disk.
ghost use Rattle.std.specs.Prelude.{◌≡◌, ◌≢◌, ◌+◌, ◌*◌, ◌≤◌, ◌⊎◌, ◌++◌, ◌∷◌, [], Err, IfOk, IfSome, IsErrOf, List, ℕ, Ok, OnOk, None, length, map, true};
ghost use Rattle.cr_outside.specs.Faults.{Rose};
ghost use Rattle.cr_outside_disk.specs.Moments.{AlwaysTold, EveryTold, LastsTold};
ghost use Rattle.cr_journal_records.specs.Records.{AtRest, Body, IsFront, IsKept, Stands, StandsNone};
ghost use Rattle.cr_journal_rows.specs.Forms.{AllFit, ReadsBodies, RecoversTold, bodies_of, header_body, row_body};
ghost use Rattle.cr_reduce.specs.declared.end.Accepted.{Accepted as Row};

use crate::JournalFault;
use crate::fault::from_disk;
use crate::header::{self, Header, read_header};
use crate::row::{self, read_rows};
use cr_journal_records as records;
use cr_outside_disk::{Disk, DiskFault};
use cr_reduce::Accepted;
use std::alloc::Global;

/// How many rows a journal has at most.
const MOST: u64 = 1 << 55;

/// Makes a journal of this header and no rows, whatever stood in the file.
pub fn begin<D: Disk>(disk: &mut D, alloc: Global, header: &Header) -> Result<(), JournalFault>
    requires ready { D.is_ready disk.old ≡ true }

    // A stop at any moment of the call leaves an image that is kept, if each was before.
    ensures any_moment { (all : List Body) → IsFront (header_body header.now ∷ []) all
        → EveryTold (IsKept all) (D.story disk.old) → AlwaysTold (IsKept all) (D.story disk.old) (D.story disk.new) }

    // Where no record stood, what stands at one moment of the call stands at each later one.
    ensures lasts { StandsNone (D.story disk.old) → (some : List Body) → LastsTold (Stands some) (D.story disk.old) (D.story disk.new) }

    // Once it answered Ok, the header stands in every image, and nothing else.
    ensures begun { OnOk result (EveryTold (AtRest (bodies_of header.now [])) (D.story disk.new)) }
    ensures ready { OnOk result (D.is_ready disk.new ≡ true) }
    ensures long { OnOk result (33 ≤ D.size disk.new) }
    ensures later { D.faults disk.old ≤ D.faults disk.new }
    ensures failed { result ≡ Err JournalFault.Disk → Rose (D.faults disk.old) (D.faults disk.new) × (D.has_failed disk.new ≡ true) }
    ensures plain { (result ≢ Ok tt) → (result ≡ Err JournalFault.Disk) ⊎ (result ≡ Err JournalFault.NoMemory) }
{
    let Ok(body) = header::body_of(alloc, header) else {
        return Err(JournalFault::NoMemory);
    };
    match records::begin(disk, alloc, &body) {
        Ok(()) => Ok(()),
        Err(fault) => Err(from_disk(fault)),
    }
}

/// Adds a row behind `count` others. A journal of 2^55 rows has no memory for another.
pub fn add<D: Disk>(
    disk: &mut D,
    alloc: Global,
    count: u64,
    row: &Accepted,
) -> Result<(), DiskFault>
    requires ready { D.is_ready disk.old ≡ true }
    requires gate_there { 32 * count + 33 ≤ D.size disk.old }

    // A stop at any moment of the call leaves an image that is kept.
    ensures any_moment { (header : Body) (rows : List Row) (all : List Body) → length rows ≡ count → IsFront (header ∷ map row_body (rows ++ row.now ∷ [])) all
        → EveryTold (AtRest (header ∷ map row_body rows)) (D.story disk.old) → AlwaysTold (IsKept all) (D.story disk.old) (D.story disk.new) }

    // What stands at one moment of the call stands at each later one.
    ensures lasts { (header : Body) (rows : List Row) (some : List Body) → length rows ≡ count → EveryTold (AtRest (header ∷ map row_body rows)) (D.story disk.old)
        → LastsTold (Stands some) (D.story disk.old) (D.story disk.new) }

    // Once it answered Ok, the row stands in every image.
    ensures added { OnOk result ((header : Body) (rows : List Row) → length rows ≡ count → EveryTold (AtRest (header ∷ map row_body rows)) (D.story disk.old)
        → EveryTold (AtRest (header ∷ map row_body (rows ++ row.now ∷ []))) (D.story disk.new)) }
    ensures ready { OnOk result (D.is_ready disk.new ≡ true) }
    ensures long { OnOk result (32 * count + 65 ≤ D.size disk.new) }
    ensures later { D.faults disk.old ≤ D.faults disk.new }
    ensures failed { IsErrOf result DiskFault.Failed → Rose (D.faults disk.old) (D.faults disk.new) × (D.has_failed disk.new ≡ true) }
{
    if count >= MOST {
        return Err(DiskFault::NoMemory);
    }
    let Ok(body) = row::body_of(alloc, row) else {
        return Err(DiskFault::NoMemory);
    };
    records::add(disk, alloc, count + 1, &body)?;
    Ok(())
}

/// Reads the journal back: nothing where no header stands, else the header and the rows that stand, or `Bad` with the first
/// record of them that isn't in the form. The gate behind them, which a stop may have torn, is closed. `len` is the disk's length.
/// For a journal of 2^61 bytes there is no memory.
pub fn recover<D: Disk>(
    disk: &mut D,
    alloc: Global,
    len: u64,
) -> Result<Option<(Header, Vec<Accepted>)>, JournalFault>
    requires ready { D.is_ready disk.old ≡ true }
    requires size { D.size disk.old ≡ len }
    ensures recovered { RecoversTold (D.story disk.old) result }

    // Where a header was found, in every image it and the rows stand, and nothing else, and the gate behind is there and closed.
    ensures rests { IfOk result (λ found. IfSome found (λ journal. EveryTold (AtRest (bodies_of journal.0 journal.1.items)) (D.story disk.new))) }
    ensures none { result ≡ Ok None → StandsNone (D.story disk.new) }

    // A stop at any moment of the call leaves an image that is kept, if each was before.
    ensures any_moment { (all : List Body) → EveryTold (IsKept all) (D.story disk.old) → AlwaysTold (IsKept all) (D.story disk.old) (D.story disk.new) }

    // What stands at one moment of the call stands at each later one.
    ensures lasts { (some : List Body) → LastsTold (Stands some) (D.story disk.old) (D.story disk.new) }
    ensures ready { OnOk result (D.is_ready disk.new ≡ true) }
    ensures long { IfOk result (λ found. IfSome found (λ journal. 32 * length journal.1.items + 33 ≤ D.size disk.new)) }
    ensures later { D.faults disk.old ≤ D.faults disk.new }
    ensures failed { result ≡ Err JournalFault.Disk → Rose (D.faults disk.old) (D.faults disk.new) × (D.has_failed disk.new ≡ true) }
    ensures never { (i : ℕ) → result ≢ Err (JournalFault.Differs i) }
    ensures fits { IfOk result (λ found. IfSome found (λ journal. AllFit journal.0 journal.1.items)) }
{
    let bodies = match records::recover(disk, alloc, len) {
        Ok(bodies) => bodies,
        Err(fault) => return Err(from_disk(fault)),
    };
    read_bodies(alloc, &bodies)
}

// The header and the rows of these bodies.
fn read_bodies(
    alloc: Global,
    bodies: &[Vec<u8>],
) -> Result<Option<(Header, Vec<Accepted>)>, JournalFault>
    ensures { ReadsBodies bodies.now result }
{
    let [first, rest @ ..] = bodies else {
        return Ok(None);
    };
    let Some(header) = read_header(first) else {
        return Err(JournalFault::Bad(0));
    };
    match read_rows(alloc, rest) {
        Ok(rows) => Ok(Some((header, rows))),
        Err(fault) => Err(fault),
    }
}
