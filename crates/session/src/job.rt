//! What a command comes to once its module is read.

ghost use Rattle.std.specs.Prelude.{◌≡◌};
ghost use Rattle.host_io.specs.Seen.{seen_files};
ghost use Rattle.session.specs.Jobs.{CarriesOut, told_by};

use host_io::{Files, Stored};
use outcomes::Outcome;
use std::alloc::AllocError;

/// What a command comes to once its module is read.
#[derive(Drop)]
pub(crate) enum Job {
    /// To tell this, and to store nothing.
    Tell(Outcome),
    /// To store bytes at a path, and then to tell this.
    Store {
        path: String,
        bytes: Vec<u8>,
        told: Outcome,
    },
}

impl Job {
    /// What is told, where all goes well.
    pub(crate) fn told(self) -> Outcome
        ensures { result ≡ told_by self }
    {
        match self {
            Job::Tell(told) => told,
            Job::Store { told, .. } => told,
        }
    }
}

/// Does it. The only error is out of memory.
pub(crate) fn carry_out<F: Files>(job: Job, files: &mut F) -> Result<Outcome, AllocError>
    ensures { let see = seen_files F.held F.counts in
        CarriesOut job (see files.old) (see files.new) result }
{
    match job {
        Job::Tell(told) => Ok(told),
        Job::Store { path, bytes, told } => match files.store(path.as_str(), &bytes) {
            Stored::Done => Ok(told),
            Stored::Failed => Ok(Outcome::WriteFault),
            Stored::Memory => Err(AllocError),
        },
    }
}
