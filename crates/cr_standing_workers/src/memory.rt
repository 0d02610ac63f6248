// The verdicts that the threads of a reduction share.
ghost use Rattle.std.specs.Prelude.{IfSome};
ghost use Rattle.cr_pool.specs.Kept.{Keeps};

use crate::orders::Subject;
use cr_outside::NoMemory;
use cr_pool::{Verdict, Verdicts};
use std::alloc::Global;
use std::marker::{Model, PhantomData};

/// The verdicts on the files that were tried last, each of them one that may be remembered. Clauses see no more of it.
#[derive(Drop)]
pub struct Memory<S: Subject<T>, T: Drop> {
    verdicts: Verdicts,
    of: PhantomData<(S, T)>,
}

impl<S: Subject<T>, T: Drop> Model for Memory<S, T> {
    ghost use Rattle.std.specs.Prelude.{⊤};
    ghost use Rattle.cr_standing_workers.specs.Remembering.{AreRemembered};

    ghost Value = { ⊤ };

    ghost view = { λ m. tt };

    ghost invariant = { λ m. AreRemembered S.verdicts m.verdicts };
}

impl<S: Subject<T>, T: Drop> Memory<S, T> {
    /// None so far.
    pub fn new(alloc: Global) -> Result<Memory<S, T>, NoMemory> {
        let verdicts = Verdicts::new(alloc)?;
        Ok(Memory {
            verdicts,
            of: PhantomData,
        })
    }

    /// The verdict on a file, where one is remembered.
    pub fn find(&self, file: &[u8]) -> Option<Verdict>
        ensures { IfSome result (S.verdicts file.now) }
    {
        self.verdicts.find(file)
    }

    /// Remembers a verdict on a file, if memory for it is left.
    pub fn put(&mut self, alloc: Global, file: &[u8], verdict: Verdict)
        requires { S.verdicts file.now verdict }
    {
        let _ = self.verdicts.put(alloc, file, verdict);
    }
}
