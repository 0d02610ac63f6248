// Why a journal can't be begun, read or followed.
ghost use Rattle.std.specs.Prelude.{◌≡◌};
ghost use Rattle.cr_journal_rows.specs.Faults.{fault_of_disk};

use cr_outside_disk::DiskFault;
use thiserror::Error;

/// Why a call on a journal was refused.
#[derive(Clone, Copy, Debug, PartialEq, Eq, Drop, Error)]
pub enum JournalFault {
    #[error("no memory is left")]
    NoMemory,
    /// The call on the disk made last failed.
    #[error("the journal could not be read or written")]
    Disk,
    /// The record of this number is the first that isn't in the form. The header's number is 0.
    #[error("record {0} of the journal isn't in the form")]
    Bad(u64),
    /// The row of this number, from 1, is the first that doesn't follow from the file. Only a replay finds that.
    #[error("row {0} of the journal doesn't follow")]
    Differs(u32),
}

/// What a refused call on the disk is to a journal.
pub fn from_disk(fault: DiskFault) -> JournalFault
    ensures { result ≡ fault_of_disk fault }
{
    match fault {
        DiskFault::Failed => JournalFault::Disk,
        DiskFault::NoMemory => JournalFault::NoMemory,
    }
}
