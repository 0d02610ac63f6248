// The verdicts that a bench keeps from one epoch to the next.
ghost use Rattle.std.specs.Prelude.{◌≡◌, ◌≤◌, [], IfOk, OnErr, OnOk, Some, None, length};
ghost use Rattle.cr_pool.specs.Kept.{IsKept, IsPut, Keeps, kept_in, put_kept};
ghost use Rattle.cr_pool.specs.declared.verdict.Verdict.{Verdict};

use crate::verdict::Verdict;
use cr_outside::NoMemory;
use lru::LruCache;
use std::alloc::{AllocError, Global};
use std::marker::Model;
use std::num::NonZeroUsize;

/// How many verdicts are kept at most.
const MOST: usize = 256;

/// The longest file on which a verdict is kept, in bytes.
const LONGEST: usize = 65_536;

/// The verdicts on the files that were tried last. Clauses see the list of them, the one that was put last first.
#[derive(Drop)]
pub struct Verdicts {
    cache: LruCache<Vec<u8>, Verdict>,
}

impl Model for Verdicts {
    ghost use Rattle.std.specs.Prelude.{◌≡◌, ◌≤◌, List, length};
    ghost use Rattle.cr_pool.specs.Kept.{Kept, kept_in};

    ghost Value = { List Kept };

    ghost view = { λ v. kept_in v.cache.entries };

    ghost invariant = { λ v. (v.cache.cap ≡ 256) × (length v.cache.entries ≤ 256) };
}

// Puts a verdict on the file that is its key.
fn store(
    cache: &mut LruCache<Vec<u8>, Verdict>,
    key: Vec<u8>,
    verdict: Verdict,
) -> Result<(), NoMemory>
    requires most { cache.old.cap ≡ 256 }
    requires few { length cache.old.entries ≤ 256 }
    ensures cap { cache.new.cap ≡ 256 }
    ensures few { length cache.new.entries ≤ 256 }
    ensures put { OnOk result (kept_in cache.new.entries ≡ put_kept 256 key.items verdict (kept_in cache.old.entries)) }
    ensures lost { OnErr result (cache.new ≡ cache.old) }
{
    match cache.put(key, verdict) {
        Ok(_) => Ok(()),
        Err(_) => Err(AllocError),
    }
}

impl Verdicts {
    /// None so far.
    pub fn new(alloc: Global) -> Result<Verdicts, NoMemory>
        ensures { IfOk result (λ verdicts. verdicts ≡ []) }
    {
        let most = NonZeroUsize::new(MOST).unwrap();
        let cache = LruCache::new(alloc, most)?;
        Ok(Verdicts { cache })
    }

    /// The verdict on a file, where one is kept. It stays as old as it is.
    #[tactic(auto, using(crate::proofs::Keeping::keeps_found, crate::proofs::Keeping::none_kept))]
    pub fn find(&self, file: &[u8]) -> Option<Verdict>
        ensures found { (verdict : Verdict) → result ≡ Some verdict → Keeps self.now file.now verdict }
        ensures none { result ≡ None → IsKept self.now file.now → ⊥ }
    {
        self.cache.peek(file).copied()
    }

    /// Keeps a verdict on a file, as the one that was used last; none on a file that is too long.
    pub fn put(&mut self, alloc: Global, file: &[u8], verdict: Verdict) -> Result<(), NoMemory>
        ensures put { OnOk result (IsPut file.now verdict self.old self.new) }
        ensures lost { OnErr result (self.new ≡ self.old) }
    {
        if file.len() > LONGEST {
            return Ok(());
        }
        match file.to_vec(alloc) {
            Ok(key) => store(&mut self.cache, key, verdict),
            Err(_) => Err(AllocError),
        }
    }

    /// Keeps none any more.
    pub fn forget(&mut self)
        ensures { self.new ≡ [] }
    {
        self.cache.clear();
    }
}
