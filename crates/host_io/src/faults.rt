//! What the errors of the system mean here.

ghost use Rattle.std.specs.Prelude.{◌≡◌};
ghost use Rattle.std.specs.IoError.{error_kind};
ghost use Rattle.host_io.specs.Faults.{fault_of};

use std::io;
use std::io::ErrorKind;

/// Why a call of the system failed.
#[derive(Clone, Copy, Debug, PartialEq, Eq)]
pub(crate) enum Fault {
    /// A signal came, and the call may be made again.
    Interrupted,
    /// There is no such path.
    Missing,
    /// It was out of memory.
    Memory,
    /// Another reason, as a full disk or a lack of permission.
    Other,
}

/// Why the call failed.
pub(crate) fn fault_of(error: &io::Error) -> Fault
    ensures { result ≡ fault_of (error_kind error.now) }
{
    match error.kind() {
        ErrorKind::Interrupted => Fault::Interrupted,
        ErrorKind::NotFound => Fault::Missing,
        ErrorKind::OutOfMemory => Fault::Memory,
        _ => Fault::Other,
    }
}
