// A folder that holds one file alone.
ghost use Rattle.std.specs.Prelude.{◌≡◌, Option, OnOk, IfOk, string_bytes};
ghost use Rattle.cr_around.specs.Holding.{Told, Clears, Puts, Holds, path_in};

use crate::fault::PlaceFault;
use std::alloc::{AllocError, Global};

/// Folders with files.
pub trait Place {
    /// What stands at each path, where it is told.
    ghost told: { Self → Option Told };

    /// Makes the folder where there is none, and takes away all that stands in it.
    fn clear(&mut self, alloc: Global, folder: &str) -> Result<(), PlaceFault>
        ensures cleared { OnOk result (Clears folder.now (told self.old) (told self.new)) };

    /// Puts a file where none is.
    fn put(&mut self, alloc: Global, path: &str, bytes: &[u8]) -> Result<(), PlaceFault>
        ensures put { OnOk result (Puts path.now bytes.now (told self.old) (told self.new)) };
}

fn path_in(alloc: Global, folder: &str, name: &str) -> Result<String, AllocError>
    ensures { IfOk result (λ path. string_bytes path ≡ path_in folder.now name.now) }
{
    format!(in alloc; "{folder}/{name}")
}

/// Leaves a folder with the file of this name alone, and all else as it is.
pub fn hold_alone<P: Place>(
    place: &mut P,
    alloc: Global,
    folder: &str,
    name: &str,
    bytes: &[u8],
) -> Result<(), PlaceFault>
    ensures alone { OnOk result (Holds folder.now name.now bytes.now (P.told place.old) (P.told place.new)) }
{
    let path = match path_in(alloc, folder, name) {
        Ok(path) => path,
        Err(_) => return Err(PlaceFault::NoMemory),
    };
    place.clear(alloc, folder)?;
    place.put(alloc, path.as_str(), bytes)
}
