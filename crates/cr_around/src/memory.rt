// A place in memory.
ghost use Rattle.std.specs.Prelude.{◌≡◌, ◌∷◌, IfOk, IsErr, IsSome, OnOk, OnErr, None, Some, option_map};
ghost use Rattle.cr_around.specs.Holding.{Clears, Puts, Told};
ghost use Rattle.cr_around.specs.MemPlace.{IsPutAt, left_by, stands_in};

use crate::fault::PlaceFault;
use crate::holding::Place;
use std::alloc::{AllocError, Global};

/// What was done to a place.
#[derive(Debug, Drop)]
enum Deed {
    /// A folder was made, or all in it taken away.
    Cleared(String),
    /// A file was put at a path.
    Put(String, Vec<u8>),
}

/// A place in memory, which tells all that stands in it: nothing at first.
#[derive(Debug, Drop)]
pub struct MemPlace {
    deeds: Vec<Deed>,
}

impl MemPlace {
    ghost use Rattle.cr_around.specs.MemPlace.{told_of};

    /// Nothing stands there.
    pub fn new(alloc: Global) -> MemPlace
        ensures nothing { told_of result ≡ (λ path. None) }
    {
        MemPlace {
            deeds: Vec::new(alloc),
        }
    }

    /// The bytes of the file at a path.
    pub fn content(&self, path: &str) -> Option<&[u8]>
        ensures { option_map (λ bytes. bytes.now) result ≡ told_of self.now path.now }
    {
        for deed in &self.deeds {
            if let Some(left) = left_by(deed, path) {
                return left;
            }
        }
        None
    }

    // Adds a deed. Without memory for it nothing was done.
    fn note(&mut self, deed: Deed) -> Result<(), PlaceFault>
        ensures told { OnOk result (self.new.deeds.items ≡ deed ∷ self.old.deeds.items) }
        ensures same { OnErr result (told_of self.new ≡ told_of self.old) }
    {
        match self.deeds.insert(0, deed) {
            Ok(()) => Ok(()),
            Err(_) => Err(PlaceFault::NoMemory),
        }
    }
}

// What a deed leaves at a path, if it says that.
fn left_by<'a>(deed: &'a Deed, path: &str) -> Option<Option<&'a [u8]>>
    ensures { option_map (option_map (λ bytes. bytes.now)) result ≡ left_by deed.now path.now }
{
    match deed {
        Deed::Cleared(folder) if stands_in(folder.as_str(), path) => Some(None),
        Deed::Put(at, bytes) if path == at.as_str() => Some(Some(bytes.as_slice())),
        Deed::Cleared(_) | Deed::Put(_, _) => None,
    }
}

// Whether a path stands below a folder.
fn stands_in(folder: &str, path: &str) -> bool
    ensures { result ≡ stands_in folder.now path.now }
{
    match path.as_bytes().strip_prefix(folder.as_bytes()) {
        Some([byte, ..]) => *byte == b'/',
        Some(_) | None => false,
    }
}

fn put_at(alloc: Global, path: &str, bytes: &[u8]) -> Result<Deed, AllocError>
    ensures { IfOk result (IsPutAt path.now bytes.now) }
{
    let path = String::from_str(alloc, path)?;
    let bytes = bytes.to_vec(alloc)?;
    Ok(Deed::Put(path, bytes))
}

impl Place for MemPlace {
    ghost use Rattle.cr_around.specs.MemPlace.{told_of};

    ghost told = { λ place. Some (told_of place) };

    fn clear(&mut self, alloc: Global, folder: &str) -> Result<(), PlaceFault>
        ensures cleared { OnOk result (Clears folder.now (Some (told_of self.old)) (Some (told_of self.new))) }
        ensures same { OnErr result (told_of self.new ≡ told_of self.old) }
    {
        match String::from_str(alloc, folder) {
            Ok(folder) => self.note(Deed::Cleared(folder)),
            Err(_) => Err(PlaceFault::NoMemory),
        }
    }

    fn put(&mut self, alloc: Global, path: &str, bytes: &[u8]) -> Result<(), PlaceFault>
        ensures put { OnOk result (Puts path.now bytes.now (Some (told_of self.old)) (Some (told_of self.new))) }
        ensures same { OnErr result (told_of self.new ≡ told_of self.old) }
        ensures refused { IsSome (told_of self.old path.now) → IsErr result }
    {
        if self.content(path).is_some() {
            return Err(PlaceFault::Failed);
        }
        match put_at(alloc, path, bytes) {
            Ok(deed) => self.note(deed),
            Err(_) => Err(PlaceFault::NoMemory),
        }
    }
}
