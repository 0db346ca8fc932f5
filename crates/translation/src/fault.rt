//! Why a text has no meaning.

ghost use Rattle.std.specs.Prelude.{◌≡◌, Some};
ghost use Rattle.translation.specs.Translated.{earlier, rank_of, Refuses};

use std::alloc::AllocError;
use thiserror::Error;

/// Why a text has no meaning. Places are counted in bytes.
///
/// Of several faults the first in the text is named; of several at one place, the one whose cause
/// stands first here.
#[derive(Clone, Copy, Debug, PartialEq, Eq, Error)]
pub enum ScopeFault {
    /// The name at the place stands for nothing.
    #[error("the name at byte {0} is not in scope")]
    Unbound(u32),
    /// The block, or the module, has defined the name at the place before.
    #[error("the name at byte {0} is defined twice")]
    Twice(u32),
    /// At the place stands a name of the interval where a term is wanted, or a term where a name of
    /// the interval is, or `natrec` with fewer than four arguments.
    #[error("the name at byte {0} is not of the kind that is wanted")]
    NameKind(u32),
    /// The side of `Glue` or `unglue` at the place is no written pair.
    #[error("the side at byte {0} is not a pair")]
    GlueSide(u32),
    /// Out of memory.
    #[error("out of memory")]
    Memory,
}

/// What is wrong at a place.
#[derive(Clone, Copy, Debug, PartialEq, Eq)]
pub enum Cause {
    Unbound,
    Twice,
    NameKind,
    GlueSide,
}

/// A place with what is wrong there.
#[derive(Clone, Copy, Debug, PartialEq, Eq)]
pub struct Refusal {
    pub at: u32,
    pub cause: Cause,
}

fn rank_of(cause: Cause) -> u8
    ensures { result ≡ rank_of cause }
{
    match cause {
        Cause::Unbound => 0,
        Cause::Twice => 1,
        Cause::NameKind => 2,
        Cause::GlueSide => 3,
    }
}

/// Which of two refusals, if any, is named.
pub fn earlier(first: Option<Refusal>, second: Option<Refusal>) -> Option<Refusal>
    ensures { result ≡ earlier first second }
{
    match (first, second) {
        (None, _) => second,
        (Some(_), None) => first,
        (Some(a), Some(b)) => {
            if b.at < a.at || (b.at == a.at && rank_of(b.cause) < rank_of(a.cause)) {
                second
            } else {
                first
            }
        }
    }
}

impl Refusal {
    /// The fault that names it.
    pub fn fault(self) -> ScopeFault
        ensures { Refuses result (Some self) }
    {
        match self.cause {
            Cause::Unbound => ScopeFault::Unbound(self.at),
            Cause::Twice => ScopeFault::Twice(self.at),
            Cause::NameKind => ScopeFault::NameKind(self.at),
            Cause::GlueSide => ScopeFault::GlueSide(self.at),
        }
    }
}

impl From<AllocError> for ScopeFault {
    fn from(_error: AllocError) -> ScopeFault {
        ScopeFault::Memory
    }
}
