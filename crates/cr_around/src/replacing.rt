// A file that is replaced so that a cut of the power leaves the old one or the new one.
ghost use Rattle.std.specs.Prelude.{◌≡◌, List, Option, OnOk, OnErr};
ghost use Rattle.cr_around.specs.Replacing.{Step, IsFresh, Adds, AddsOrNot, Keeps, Stays};
ghost use Rattle.cr_around.specs.Replacing.Step.{Parted, Synced, Renamed, Settled};

use crate::fault::PlaceFault;

/// A file of a name, and the part beside it.
pub trait Shelf {
    /// The steps so far, where they are told.
    ghost steps: { Self → Option (List Step) };

    /// Makes the part, a new file, with these bytes.
    fn part(&mut self, bytes: &[u8]) -> Result<(), PlaceFault>
        ensures done { OnOk result (Adds (Parted bytes.now) (steps self.old) (steps self.new)) }
        ensures failed { OnErr result (AddsOrNot (Parted bytes.now) (steps self.old) (steps self.new)) };

    /// Puts the part's bytes on the disk.
    fn sync(&mut self) -> Result<(), PlaceFault>
        ensures done { OnOk result (Adds Synced (steps self.old) (steps self.new)) }
        ensures failed { OnErr result (steps self.new ≡ steps self.old) };

    /// Gives the part the file's name.
    fn rename(&mut self) -> Result<(), PlaceFault>
        ensures done { OnOk result (Adds Renamed (steps self.old) (steps self.new)) }
        ensures failed { OnErr result (AddsOrNot Renamed (steps self.old) (steps self.new)) };

    /// Puts the names in the folder on the disk.
    fn settle(&mut self) -> Result<(), PlaceFault>
        ensures done { OnOk result (Adds Settled (steps self.old) (steps self.new)) }
        ensures failed { OnErr result (steps self.new ≡ steps self.old) };
}

/// Puts these bytes in the place of the file's: at each moment a cut of the power leaves the old bytes or these, and after `Ok` these.
pub fn replace<S: Shelf>(shelf: &mut S, bytes: &[u8]) -> Result<(), PlaceFault>
    requires fresh { IsFresh (S.steps shelf.old) }
    ensures keeps { Keeps bytes.now (S.steps shelf.new) }
    ensures stays { OnOk result (Stays bytes.now (S.steps shelf.new)) }
{
    shelf.part(bytes)?;
    shelf.sync()?;
    shelf.rename()?;
    shelf.settle()
}
