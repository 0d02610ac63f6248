// A keeper that adds each row to a journal.
ghost use Rattle.std.specs.Prelude.{true};
ghost use Rattle.cr_journal.specs.Keeping.{HasKept, KeptOn};
ghost use Rattle.cr_journal.specs.Times.{at_once, one_after};

use cr_journal_rows::add;
use cr_outside::NoMemory;
use cr_outside_disk::{Disk, DiskFault};
use cr_reduce::{Accepted, Keeper};
use std::alloc::{AllocError, Global};

/// Adds each row to the journal on a disk. For the walk a disk that fails is want of memory; the keeper remembers which it was.
#[derive(Drop)]
pub struct DiskKeeper<'a, D: Disk> {
    pub disk: &'a mut D,
    /// Whether the call on the disk made last failed.
    pub has_failed: bool,
}

impl<'a, D: Disk> Keeper for DiskKeeper<'a, D> {
    type Held = u64;

    ghost held = { λ k. k.disk.ghost_name };

    ghost keeps = { λ k rows. HasKept (D.story k.disk.now) (D.is_ready k.disk.now) (D.size k.disk.now) k.has_failed rows };

    ghost kept_on = { λ a b rows. KeptOn (D.story a.disk.now) (D.story b.disk.now) rows (D.faults a.disk.now) (D.faults b.disk.now) (D.has_failed b.disk.now) b.has_failed };

    ghost at_once = { λ k rows keeps. at_once (D.story k.disk.now) rows (D.is_ready k.disk.now) (D.size k.disk.now) (D.faults k.disk.now) (D.has_failed k.disk.now) k.has_failed keeps };

    ghost then = { λ a b c some all front first second. one_after some all (D.story a.disk.now) (D.story b.disk.now) (D.story c.disk.now)
        (D.faults a.disk.now) (D.faults b.disk.now) (D.faults c.disk.now) (D.has_failed b.disk.now) (D.has_failed c.disk.now) b.has_failed c.has_failed front first second };

    fn keep(&mut self, alloc: Global, row: Accepted, count: u64) -> Result<(), NoMemory> {
        match add(self.disk, alloc, count, &row) {
            Ok(()) => Ok(()),
            Err(DiskFault::Failed) => {
                self.has_failed = true;
                Err(AllocError)
            }
            Err(DiskFault::NoMemory) => Err(AllocError),
        }
    }
}
