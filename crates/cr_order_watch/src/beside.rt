// Two watches of one run.
ghost use Rattle.std.specs.Prelude.{List};
ghost use Rattle.cr_meaning.specs.World.{Program};
ghost use Rattle.cr_meaning_seen.specs.Marks.{Mark};

use cr_exec::Watch;
use cr_footprint::{Foot, NoMemory};

/// Sees what both see, the one first.
#[derive(Drop)]
pub(crate) struct Beside<A: Watch, B: Watch> {
    pub(crate) one: A,
    pub(crate) other: B,
}

impl<A: Watch, B: Watch> Watch for Beside<A, B> {
    ghost knows = { λ both p marks. A.knows both.one p marks × B.knows both.other p marks };

    fn begin(&mut self, node: u32) -> Result<(), NoMemory> {
        match self.one.begin(node) {
            Ok(()) => self.other.begin(node),
            Err(end) => Err(end),
        }
    }

    fn end(&mut self, node: u32, foot: &Foot) -> Result<(), NoMemory> {
        match self.one.end(node, foot) {
            Ok(()) => self.other.end(node, foot),
            Err(end) => Err(end),
        }
    }
}
