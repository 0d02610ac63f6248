// Passes of variants.
ghost use Rattle.std.specs.Prelude.{◌≡◌, ◌<◌, ◌≤◌, ℕ, List, [], length, vec_capacity, IfOk, OnOk, OnErr};
ghost use Rattle.cr_cursor.specs.declared.passes.Cursor.{Cursor};
ghost use Rattle.cr_cursor.specs.Variants.{Offer, pass_count};

use std::alloc::{AllocError, Global};

/// Want of memory.
pub type NoMemory = AllocError;

/// Names a variant of a file: a pass below `PASSES`, a level of it from 0 to 15, and an index below the level's width.
#[derive(Clone, Copy, Debug, PartialEq, Eq)]
pub struct Cursor {
    pub pass: u8,
    pub level: u8,
    pub index: u64,
}

/// Numbered passes that offer variants of a file.
pub trait Passes {
    /// What is made once for a file, so that each variant is made from its number.
    type Prep: Drop;

    /// What is offered for a file: a relation, with one offer at most.
    ghost offers: { Self → List ℕ → Offer → Type 0 };

    /// What an index and a file's bytes offer.
    ghost offer: { Self → Self.Prep → List ℕ → Offer };

    /// Makes the index of a file.
    fn prepare(&self, alloc: Global, file: &[u8]) -> Result<Self::Prep, NoMemory>
        requires { length file.now ≤ 1048576 }
        ensures { IfOk result (λ prep. offers self.now file.now (offer self.now prep file.now)) };

    /// The width of a level. A pass that isn't enabled, a pass of `PASSES` or above and a level that isn't there have width 0.
    fn width(&self, prep: &Self::Prep, pass: u8, level: u8) -> u64
        ensures width { (file : List ℕ) → result ≡ (offer self.now prep.now file).widths pass level }
        ensures few { result ≤ 1048576 };

    /// Sets `out` to the variant that the cursor names. Where `out` has room for it at entry, it takes no memory. After
    /// want of memory `out` is empty.
    fn variant(
        &self,
        prep: &Self::Prep,
        file: &[u8],
        at: Cursor,
        out: &mut Vec<u8>,
    ) -> Result<(), NoMemory>
        requires { at.index < (offer self.now prep.now file.now).widths at.pass at.level }
        ensures variant { OnOk result (out.new.items ≡ (offer self.now prep.now file.now).bytes at) }
        ensures empty { OnErr result (out.new.items ≡ []) }
        ensures full { OnErr result (vec_capacity out.old < length ((offer self.now prep.now file.now).bytes at)) };

    /// A file has one offer at most.
    ghost one: { (p : Self) (file : List ℕ) (o other : Offer) → offers p file o → offers p file other → o ≡ other };

    /// A level has no more variants than the file has bytes.
    ghost few: { (p : Self) (file : List ℕ) (o : Offer) (pass level : ℕ) → offers p file o → o.widths pass level ≤ length file };

    /// There are as many passes as `pass_count` says.
    ghost no_more_passes: { (p : Self) (file : List ℕ) (o : Offer) (pass level : ℕ) → offers p file o → pass_count ≤ pass → o.widths pass level ≡ 0 };

    /// A pass has at most 16 levels.
    ghost sixteen_levels: { (p : Self) (file : List ℕ) (o : Offer) (pass level : ℕ) → offers p file o → 15 < level → o.widths pass level ≡ 0 };
}
