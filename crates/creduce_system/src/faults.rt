// The system's errors as faults of a place, and back.
ghost use Rattle.std.specs.Prelude.{◌≡◌, ◌≢◌};
ghost use Rattle.std.specs.IoError.{error_kind};

use cr_around::PlaceFault;
use std::io::{self, ErrorKind};

/// The fault that an error is.
pub fn fault_of(error: io::Error) -> PlaceFault
    ensures memory { error_kind error ≡ ErrorKind.OutOfMemory → result ≡ PlaceFault.NoMemory }
    ensures failed { error_kind error ≢ ErrorKind.OutOfMemory → result ≡ PlaceFault.Failed }
{
    if error.kind() == ErrorKind::OutOfMemory {
        PlaceFault::NoMemory
    } else {
        PlaceFault::Failed
    }
}

/// The error that a fault stands for.
pub fn error_of(fault: PlaceFault) -> io::Error
    ensures memory { fault ≡ PlaceFault.NoMemory → error_kind result ≡ ErrorKind.OutOfMemory }
    ensures failed { fault ≡ PlaceFault.Failed → error_kind result ≡ ErrorKind.Other }
{
    match fault {
        PlaceFault::Failed => io::Error::from(ErrorKind::Other),
        PlaceFault::NoMemory => io::Error::from(ErrorKind::OutOfMemory),
    }
}

/// All is well too where the call failed in this way.
pub fn allowing(outcome: io::Result<()>, kind: ErrorKind) -> io::Result<()> {
    match outcome {
        Err(e) if e.kind() != kind => Err(e),
        _ => Ok(()),
    }
}
