// Where the program's lines go.
ghost use Rattle.std.specs.Prelude.{◌≤◌, ℕ, List, Option, IsErrOf};
ghost use Rattle.cr_outside.specs.Faults.{Rose};
ghost use Rattle.cr_outside.specs.Sink.{Puts};

use thiserror::Error;

/// Why a piece was not put whole.
#[derive(Clone, Copy, Debug, PartialEq, Eq, Drop, Error)]
pub enum SinkFault {
    #[error("the output could not be written")]
    Failed,
    #[error("no memory is left")]
    NoMemory,
}

/// Takes pieces of text, one after the other. An object may tell all that was put.
pub trait Sink {
    /// The bytes put so far, where they are told.
    ghost told: { Self → Option (List ℕ) };

    /// How often the outside has failed. It never falls.
    ghost faults: { Self → ℕ };

    /// Puts a piece behind the others. A refused put may have put a prefix of it.
    fn put(&mut self, bytes: &[u8]) -> Result<(), SinkFault>
        ensures put { Puts (told self.old) (told self.new) bytes.now result }
        ensures later { faults self.old ≤ faults self.new }
        ensures failed { IsErrOf result SinkFault.Failed → Rose (faults self.old) (faults self.new) };
}
