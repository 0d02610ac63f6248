// The journal beside a file.
ghost use Rattle.std.specs.Prelude.{◌≡◌, ◌≤◌, ◌+◌, ◌*◌, Err, IfOk, IsErrOf, OnOk, [], true, ℕ};
ghost use Rattle.cr_journal_records.specs.Records.{AtRest, StandsNone};
ghost use Rattle.cr_journal_rows.specs.Forms.{bodies_of};
ghost use Rattle.cr_main_kept.specs.Lines.{IsDiskFault};
ghost use Rattle.cr_main_kept.specs.Kept.{BeginWith, Journals};
ghost use Rattle.cr_outside_disk.specs.Moments.{EveryTold, HasLength};

use cr_journal_rows::{self as rows, Header, JournalFault, from_disk};
use cr_main_task::beside;
use cr_outside_disk::{Disk, DiskFault};
use std::alloc::Global;

/// How many rows a journal has at most.
const MOST_ROWS: u64 = 1 << 55;

/// Opens the journal of the file of this name, and answers its length.
pub fn start<D: Disk>(alloc: Global, name: &str, disk: &mut D) -> Result<u64, DiskFault>
    ensures same { D.story disk.new ≡ D.story disk.old }
    ensures ready { OnOk result (D.is_ready disk.new ≡ true) }
    ensures size { IfOk result (λ len. D.size disk.new ≡ len) }
    ensures length { IfOk result (HasLength (D.story disk.new)) }
    ensures failed { IsErrOf result DiskFault.Failed → D.has_failed disk.new ≡ true }
{
    match beside(alloc, name, ".journal") {
        Ok(journal) => disk.start(alloc, journal.as_str()),
        Err(_) => Err(DiskFault::NoMemory),
    }
}

/// Begins a journal of this header. The file's own calls may have come between, so it is opened once more.
pub fn begin<D: Disk>(
    alloc: Global,
    name: &str,
    header: &Header,
    disk: &mut D,
) -> Result<(), JournalFault>
    requires none { StandsNone (D.story disk.old) }
    ensures journals { Journals (BeginWith header.now) (D.story disk.old) (D.story disk.new) }
    ensures begun { OnOk result (EveryTold (AtRest (bodies_of header.now [])) (D.story disk.new)) }
    ensures ready { OnOk result (D.is_ready disk.new ≡ true) }
    ensures long { OnOk result (33 ≤ D.size disk.new) }
    ensures cause { (fault : JournalFault) → result ≡ Err fault → IsDiskFault fault (D.has_failed disk.new) }
{
    match start(alloc, name, disk) {
        Ok(_) => rows::begin(disk, alloc, header),
        Err(fault) => Err(from_disk(fault)),
    }
}

/// Opens a journal of so many rows once more. For one that has become shorter, as a disk that tells nothing may say, there is no
/// memory.
pub fn reopen<D: Disk>(
    alloc: Global,
    name: &str,
    count: u64,
    disk: &mut D,
) -> Result<(), JournalFault>
    ensures same { D.story disk.new ≡ D.story disk.old }
    ensures ready { OnOk result (D.is_ready disk.new ≡ true) }
    ensures long { OnOk result (32 * count + 33 ≤ D.size disk.new) }
    ensures cause { (fault : JournalFault) → result ≡ Err fault → IsDiskFault fault (D.has_failed disk.new) }
{
    if count >= MOST_ROWS {
        return Err(JournalFault::NoMemory);
    }
    match start(alloc, name, disk) {
        Ok(len) if len < 32 * count + 33 => Err(JournalFault::NoMemory),
        Ok(_) => Ok(()),
        Err(fault) => Err(from_disk(fault)),
    }
}
